// Which job is due first.
ghost use Rattle.std.specs.Prelude.{◌≡◌, false, ◌≤◌, [], MatchOption};
ghost use Rattle.queue.specs.Due.{due, earlier};
ghost use Rattle.queue.specs.Waiting.{latest_arrival, any, late};
ghost use Rattle.queue.specs.Found.{as_due, IsEarliest};

use crate::Job;

// When a job is due, in the order of due times: no deadline comes after all others.
#[derive(Clone, Copy, PartialEq, Eq, PartialOrd, Ord)]
enum Due {
    At(u64),
    Never,
}

// When a job is due. Up to the latest arrival the sum fits.
#[tactic(auto, using(std::proofs::lemmas::Bool::Decides::nat_tests), unfolding(crate::specs::Due::due))]
fn due_of(j: &Job) -> Due
    requires { j.now.arrival ≤ latest_arrival }
    ensures { as_due result ≡ due j.now }
{
    match j.timeout {
        0 => Due::Never,
        timeout => Due::At(j.arrival + u64::from(timeout)),
    }
}

// Whether a is before b; two that have no deadline are a tie.
fn due_before(a: Due, b: Due) -> bool
    ensures { result ≡ earlier (as_due a) (as_due b) }
{
    a < b
}

// The place of the job that is due first, of several the first.
pub(crate) fn earliest(jobs: &[Job]) -> Option<usize>
    requires { any late jobs.now ≡ false }
    ensures { MatchOption result (jobs.now ≡ []) (IsEarliest jobs.now) }
{
    let (j, later) = jobs.split_first()?;
    let mut first = 0;
    let mut best = due_of(j);
    for (i, j) in later.iter().enumerate() {
        let due = due_of(j);
        if due_before(due, best) {
            first = i + 1;
            best = due;
        }
    }
    Some(first)
}
