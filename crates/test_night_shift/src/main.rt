// The order in which jobs are taken, printed as their timeouts: the night shift's two jobs, one of which had been taken
// first by a signed 32-bit difference of the timeouts, and document 01's example.
#![tactic(auto)]

use queue::{Job, Queue};
use std::io;
use std::io::Stdout;

// The queue with one job more, of arrival 0.
// Not shared with `test_queue`: it is one call, of jobs that differ.
fn with_job(q: Queue, request: u32, timeout: u32) -> Queue {
    let job = Job {
        connection: 1,
        request,
        timeout,
        zero: 0,
        arrival: 0,
    };
    queue::add(q, job).queue
}

// Takes a job and prints its timeout.
fn print_next(out: Stdout, q: Queue) -> io::Result<Queue> {
    let removed = queue::take(q);
    out.println(removed.job.unwrap_or(Job::default()).timeout)?;
    Ok(removed.queue)
}

fn night_shift(out: Stdout) -> io::Result<()> {
    out.println("night shift")?;
    let q = with_job(queue::empty(), 1, 4000000000);
    let q = with_job(q, 2, 600000);
    let q = print_next(out, q)?;
    print_next(out, q)?;
    Ok(())
}

fn document_example(out: Stdout) -> io::Result<()> {
    out.println("document 01")?;
    let q = with_job(queue::empty(), 1, 0);
    let q = with_job(q, 2, 4000000000);
    let q = with_job(q, 3, 600000);
    let q = print_next(out, q)?;
    let q = print_next(out, q)?;
    print_next(out, q)?;
    Ok(())
}

fn main(rt: HostRuntime) -> io::Result<()> {
    let out = rt.stdout();
    night_shift(out)?;
    document_example(out)
}
