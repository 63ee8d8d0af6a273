// A job leaves the queue.
ghost use Rattle.std.specs.Prelude.{◌≡◌, ◌≤◌, ◌<◌};
ghost use Rattle.queue.specs.Calls.{removed_at};
ghost use Rattle.queue.specs.Waiting.{capacity, closed_up};

use crate::{Job, Queue};

// Takes the job at a place out of a queue: later jobs move up one, and the place freed is zero.
fn close_up(q: &mut Queue, at: usize)
    requires { (at < q.old.count) × (q.old.count ≤ capacity) }
    ensures { q.new ≡ closed_up q.old at }
{
    let last = q.count - 1;
    q.jobs.copy_within(at + 1..q.count, at);
    q.jobs[last] = Job::default();
    q.count = last;
}

// Takes the job at a place out of a queue, and gives it.
pub(crate) fn remove(q: &mut Queue, at: usize) -> Job
    requires { (at < q.old.count) × (q.old.count ≤ capacity) }
    ensures { record { queue = q.new; job = result; error = 0 } ≡ removed_at q.old at }
{
    let job = q.jobs[at];
    close_up(q, at);
    job
}
