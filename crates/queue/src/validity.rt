// Whether a queue that comes in is one that may be worked on.
ghost use Rattle.std.specs.Prelude.{◌≡◌, true, ◌||◌, MatchResult};
ghost use Rattle.queue.specs.Waiting.{waiting, invalid, pair_twice, any, late};
ghost use Rattle.queue.specs.Found.{Waits};

use crate::{CAPACITY, Job, LATEST_ARRIVAL, Queue, pairs};
use refusals::Refusal;

// Whether a pair is there twice or an arrival is above 2^62.
fn has_fault(jobs: &[Job]) -> bool
    ensures { result ≡ (pair_twice jobs.now || any late jobs.now) }
{
    let mut rest = jobs;
    while let Some((j, later)) = rest.split_first() {
        if LATEST_ARRIVAL < j.arrival || pairs::find(later, j.connection, j.request).is_some() {
            return true;
        }
        rest = later;
    }
    false
}

// The jobs that wait, of a queue whose count is up to 64 and which has no fault.
#[tactic(auto, using(crate::proofs::Valid::checked))]
pub(crate) fn waiting(q: &Queue) -> Result<&[Job], Refusal>
    ensures { MatchResult result (λ w. Waits q.now w.now) (λ e. (e ≡ Refusal.BadQueue) × (invalid q.now ≡ true)) }
{
    if CAPACITY < q.count {
        return Err(Refusal::BadQueue);
    }
    let waiting = &q.jobs[..q.count];
    if has_fault(waiting) {
        return Err(Refusal::BadQueue);
    }
    Ok(waiting)
}
