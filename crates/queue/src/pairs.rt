// Where a pair of connection number and request id is among jobs.
ghost use Rattle.std.specs.Prelude.{◌≡◌, MatchOption};
ghost use Rattle.queue.specs.Waiting.{has_pair};
ghost use Rattle.queue.specs.Found.{AtPlace, Nowhere};

use crate::Job;

// Whether a job has a pair.
// No derived equality: of a job's five numbers two are its pair.
fn has_pair(j: &Job, connection: u32, request: u32) -> bool
    ensures { result ≡ has_pair connection request j.now }
{
    j.connection == connection && j.request == request
}

// The first place of a pair.
// Two numbers and no pair: so `cancel` and C hand them in, and each is only compared.
pub(crate) fn find(jobs: &[Job], connection: u32, request: u32) -> Option<usize>
    ensures { MatchOption result (Nowhere (has_pair connection request) jobs.now) (AtPlace (has_pair connection request) jobs.now) }
{
    jobs.iter().position(|j| has_pair(j, connection, request))
}
