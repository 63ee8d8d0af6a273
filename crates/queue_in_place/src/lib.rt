// The queue of waiting jobs, lent by the controller and updated in place (document 01, "Waiting jobs"), for C. Each function
// reads the queue, calls the function by value of crate `queue`, stores the queue and the job of the answer, and returns
// document 01's refusal number, and 0 where there is none. So each contract says that what the caller has afterwards, put
// together, is the definition's answer for the queue as it was lent. `queue_in_place_c` exports the functions.
#![tactic(auto)]

ghost use Rattle.std.specs.Prelude.{◌≡◌};
ghost use Rattle.queue.specs.Calls.{new_job, empty_queue, added, taken, cancelled, job_or_zero};
ghost use Rattle.refusals.specs.Refusals.{code_of};

use queue::{Job, Queue};
use refusals::Refusal;

// Makes the queue one in which nothing waits, whatever it held.
pub fn trpc_queue_init(q: &mut Queue)
    ensures { q.new ≡ empty_queue }
{
    *q = queue::empty();
}

// Puts a job after those that wait; its `zero` is 0.
pub fn trpc_queue_add(
    q: &mut Queue,
    connection: u32,
    request: u32,
    timeout: u32,
    arrival: u64,
) -> u32
    ensures { record { queue = q.new; error = result }
        ≡ added q.old (new_job connection request timeout arrival) }
{
    let job = Job {
        connection,
        request,
        timeout,
        zero: 0,
        arrival,
    };
    let added = queue::add(*q, job);
    *q = added.queue;
    code(added.answer)
}

// The number of a refusal, and 0 where there is none.
fn code(answer: Result<(), Refusal>) -> u32
    ensures { result ≡ code_of answer }
{
    match answer {
        Ok(()) => 0,
        Err(refusal) => refusal.number(),
    }
}

// Stores the job that `take` or `cancel` answered, of a refusal one that is all zero, and gives the number.
fn store(removed: &mut Job, job: Result<Job, Refusal>) -> u32
    ensures { (removed.new ≡ job_or_zero job) × (result ≡ code_of job) }
{
    match job {
        Ok(j) => {
            *removed = j;
            0
        }
        Err(refusal) => {
            *removed = Job::default();
            refusal.number()
        }
    }
}

// Removes the job that is due first, of several the one accepted first.
pub fn trpc_queue_take(q: &mut Queue, removed: &mut Job) -> u32
    ensures { record { queue = q.new; job = removed.new; error = result } ≡ taken q.old }
{
    let taken = queue::take(*q);
    *q = taken.queue;
    store(removed, taken.job)
}

// Removes the job of a pair.
pub fn trpc_queue_cancel(q: &mut Queue, connection: u32, request: u32, removed: &mut Job) -> u32
    ensures { record { queue = q.new; job = removed.new; error = result }
        ≡ cancelled q.old connection request }
{
    let cancelled = queue::cancel(*q, connection, request);
    *q = cancelled.queue;
    store(removed, cancelled.job)
}
