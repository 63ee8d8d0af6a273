// The queue's error codes and their order, and which job is taken, case by case: a line for each, its name and the number.
#![tactic(auto)]

use queue::{Job, Queue};
use refusals::Refusal;
use std::io;
use std::io::Stdout;

fn print(out: Stdout, name: &str, n: u32) -> io::Result<()> {
    println!(out; "{name}{n}")
}

fn job(request: u32, timeout: u32, arrival: u64) -> Job {
    Job {
        connection: 7,
        request,
        timeout,
        zero: 0,
        arrival,
    }
}

// The queue with a job more.
fn with_job(q: Queue, j: Job) -> Queue {
    queue::add(q, j).queue
}

// The number of a refusal, and 0 where there is none.
fn code<T: Copy>(answer: Result<T, Refusal>) -> u32 {
    match answer {
        Ok(_) => 0,
        Err(refusal) => refusal.number(),
    }
}

// The request id of the job removed, and 0 of a refusal.
fn request(job: Result<Job, Refusal>) -> u32 {
    job.unwrap_or(Job::default()).request
}

// What add, take and cancel of a pair that doesn't wait answer.
fn print_errors(out: Stdout, q: Queue, j: Job) -> io::Result<()> {
    print(out, "  add ", code(queue::add(q, j).answer))?;
    print(out, "  take ", code(queue::take(q).job))?;
    print(out, "  cancel ", code(queue::cancel(q, 8, 0).job))
}

// The request ids in the order in which two jobs are taken.
fn print_order(out: Stdout, q: Queue) -> io::Result<()> {
    let first = queue::take(q);
    print(out, "  first ", request(first.job))?;
    let second = queue::take(first.queue);
    print(out, "  second ", request(second.job))
}

// A queue in which 64 jobs wait, request ids 0 to 63.
fn full() -> Queue {
    let mut q = queue::empty();
    for request in 0..64 {
        q = with_job(q, job(request, 1, 0));
    }
    q
}

fn invalid_queues(out: Stdout) -> io::Result<()> {
    let mut q = queue::empty();
    q.count = 65;
    out.println("count 65")?;
    print_errors(out, q, job(1, 0, 4611686018427387905))?;
    let mut q = queue::empty();
    q.count = 2;
    out.println("a pair twice")?;
    print_errors(out, q, job(1, 0, 0))?;
    let mut q = with_job(queue::empty(), job(1, 0, 0));
    q.jobs[0] = job(1, 0, 4611686018427387905);
    out.println("a late arrival waits")?;
    print_errors(out, q, job(1, 0, 0))?;
    q.count = 0;
    out.println("a late arrival past the count")?;
    print_errors(out, q, job(1, 0, 0))
}

fn grounds_of_add(out: Stdout) -> io::Result<()> {
    let q = full();
    out.println("64 wait")?;
    print_errors(out, q, job(64, 0, 4611686018427387904))?;
    out.println("64 wait, the pair among them")?;
    print_errors(out, q, job(63, 0, 0))?;
    out.println("64 wait, the pair among them, too late")?;
    print_errors(out, q, job(63, 0, 4611686018427387905))?;
    let taken = queue::take(q);
    out.println("one was taken")?;
    print_errors(out, taken.queue, job(64, 0, 0))?;
    let cancelled = queue::cancel(q, 7, 63);
    print(out, "  cancelled ", request(cancelled.job))?;
    print_errors(out, cancelled.queue, job(63, 0, 0))
}

fn orders(out: Stdout) -> io::Result<()> {
    out.println("a tie")?;
    print_order(
        out,
        with_job(
            with_job(queue::empty(), job(1, 500, 1000)),
            job(2, 1000, 500),
        ),
    )?;
    out.println("no deadlines")?;
    print_order(
        out,
        with_job(with_job(queue::empty(), job(1, 0, 9)), job(2, 0, 3)),
    )?;
    out.println("no deadline sorts last")?;
    print_order(
        out,
        with_job(
            with_job(queue::empty(), job(1, 0, 0)),
            job(2, 4294967295, 4611686018427387904),
        ),
    )?;
    out.println("the clock went back")?;
    print_order(
        out,
        with_job(with_job(queue::empty(), job(1, 10, 5000)), job(2, 10, 4000)),
    )?;
    out.println("due 2^32 apart")?;
    print_order(
        out,
        with_job(
            with_job(queue::empty(), job(1, 1, 4294967296)),
            job(2, 2, 0),
        ),
    )?;
    out.println("due 2^31 apart")?;
    print_order(
        out,
        with_job(
            with_job(queue::empty(), job(1, 2147483649, 0)),
            job(2, 1, 0),
        ),
    )
}

fn main(rt: HostRuntime) -> io::Result<()> {
    let out = rt.stdout();
    out.println("nothing waits")?;
    print_errors(out, queue::empty(), job(0, 0, 0))?;
    let refused = queue::take(queue::empty());
    print(out, "  job ", request(refused.job))?;
    invalid_queues(out)?;
    grounds_of_add(out)?;
    orders(out)
}
