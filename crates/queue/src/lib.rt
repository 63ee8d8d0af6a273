// The queue of waiting jobs, by value (document 01, "Waiting jobs"): a queue goes in and comes back with the answer. Of a
// refusal it comes back as it was.
#![tactic(auto)]

mod due;
mod pairs;
mod removal;
mod validity;

ghost use Rattle.std.specs.Prelude.{◌≡◌, MatchResult};
ghost use Rattle.queue.specs.Calls.{job_of, empty_queue, added, after_add, taken, cancelled, after_removal};
ghost use Rattle.queue.specs.Found.{HasRoom, AddRefused, Removes, RemovalRefused};

use records::Request;
use refusals::Refusal;

// The most jobs that a queue holds.
pub const CAPACITY: usize = 64;

// The latest arrival that a waiting job may have.
pub const LATEST_ARRIVAL: u64 = 1 << 62;

// A job, named by its pair of connection number and request id. A timeout of 0 is no deadline. Times are in milliseconds.
// `zero` fills the four bytes before `arrival`: without it they would be padding, which no contract could speak of. No
// function looks at it, and it moves with its job.
#[repr(C)]
#[derive(Clone, Copy, Default)]
pub struct Job {
    pub connection: u32,
    pub request: u32,
    pub timeout: u32,
    pub zero: u32,
    pub arrival: u64,
}

// The first `count` jobs wait, in order of acceptance.
// An array and a count: the memory of C's `struct trpc_queue`, and no heap.
#[repr(C)]
#[derive(Clone, Copy)]
pub struct Queue {
    pub jobs: [Job; 64],
    pub count: usize,
}

// What `add` answers. The queue stands beside the answer and not in it: one more copy of its 1,544 bytes is out of the
// bound of the stack.
#[derive(Clone, Copy)]
pub struct Added {
    pub queue: Queue,
    pub answer: Result<(), Refusal>,
}

// What `take` and `cancel` answer, with the job removed.
#[derive(Clone, Copy)]
pub struct Removed {
    pub queue: Queue,
    pub job: Result<Job, Refusal>,
}

// The job of a request that was read, which came on a connection at a time. Its request id is that of the fixed header, the
// one to answer with.
pub fn job_of(request: Request, connection: u32, arrival: u64) -> Job
    ensures { result ≡ job_of request connection arrival }
{
    Job {
        connection,
        request: request.id,
        timeout: request.timeout,
        zero: 0,
        arrival,
    }
}

// A queue in which nothing waits.
pub fn empty() -> Queue
    ensures { result ≡ empty_queue }
{
    Queue {
        jobs: [Job::default(); 64],
        count: 0,
    }
}

// Whether there is room for a job, and nothing else against it.
fn room(q: &Queue, j: Job) -> Result<(), Refusal>
    ensures { MatchResult result (λ u. HasRoom q.now j) (λ e. AddRefused q.now j e) }
{
    let waiting = validity::waiting(q)?;
    if LATEST_ARRIVAL < j.arrival {
        return Err(Refusal::LateArrival);
    }
    if pairs::find(waiting, j.connection, j.request).is_some() {
        return Err(Refusal::PairWaits);
    }
    let n = q.count;
    if n == CAPACITY {
        return Err(Refusal::QueueFull);
    }
    Ok(())
}

// Puts a job after those that wait.
pub fn add(q: Queue, j: Job) -> Added
    ensures { after_add result ≡ added q j }
{
    let mut added = Added {
        queue: q,
        answer: Ok(()),
    };
    added.answer = room(&added.queue, j);
    if added.answer.is_ok() {
        let n = q.count;
        added.queue.jobs[n] = j;
        added.queue.count = n + 1;
    }
    added
}

// The place of the job that is due first, of several the one accepted first.
fn place_of_due(q: &Queue) -> Result<usize, Refusal>
    ensures { MatchResult result (λ at. Removes q.now at (taken q.now)) (λ e. RemovalRefused q.now e (taken q.now)) }
{
    let waiting = validity::waiting(q)?;
    due::earliest(waiting).ok_or(Refusal::QueueEmpty)
}

// The place of the job of a pair.
fn place_of_pair(q: &Queue, connection: u32, request: u32) -> Result<usize, Refusal>
    ensures { MatchResult result (λ at. Removes q.now at (cancelled q.now connection request))
        (λ e. RemovalRefused q.now e (cancelled q.now connection request)) }
{
    let waiting = validity::waiting(q)?;
    pairs::find(waiting, connection, request).ok_or(Refusal::PairAbsent)
}

// Removes the job that is due first, of several the one accepted first.
pub fn take(q: Queue) -> Removed
    ensures { after_removal result ≡ taken q }
{
    let mut queue = q;
    match place_of_due(&queue) {
        Ok(at) => {
            let job = Ok(removal::remove(&mut queue, at));
            Removed { queue, job }
        }
        Err(refusal) => Removed {
            queue,
            job: Err(refusal),
        },
    }
}

// Removes the job of a pair.
pub fn cancel(q: Queue, connection: u32, request: u32) -> Removed
    ensures { after_removal result ≡ cancelled q connection request }
{
    let mut queue = q;
    match place_of_pair(&queue, connection, request) {
        Ok(at) => {
            let job = Ok(removal::remove(&mut queue, at));
            Removed { queue, job }
        }
        Err(refusal) => Removed {
            queue,
            job: Err(refusal),
        },
    }
}
