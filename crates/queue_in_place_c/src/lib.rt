// The exports of `queue_in_place`, for C: each calls the library's function of its name and states its clauses again.
#![tactic(auto)]

ghost use Rattle.std.specs.Prelude.{◌≡◌};
ghost use Rattle.queue.specs.Calls.{new_job, empty_queue, added, taken, cancelled};

use queue::{Job, Queue};

// Makes the queue one in which nothing waits, whatever it held.
#[unsafe(no_mangle)]
pub extern "C" fn trpc_queue_init(q: &mut Queue)
    ensures { q.new ≡ empty_queue }
{
    queue_in_place::trpc_queue_init(q);
}

// Puts a job after those that wait; its `zero` is 0.
#[unsafe(no_mangle)]
pub extern "C" fn trpc_queue_add(
    q: &mut Queue,
    connection: u32,
    request: u32,
    timeout: u32,
    arrival: u64,
) -> u32
    ensures { record { queue = q.new; error = result }
        ≡ added q.old (new_job connection request timeout arrival) }
{
    queue_in_place::trpc_queue_add(q, connection, request, timeout, arrival)
}

// Removes the job that is due first, of several the one accepted first.
#[unsafe(no_mangle)]
pub extern "C" fn trpc_queue_take(q: &mut Queue, removed: &mut Job) -> u32
    ensures { record { queue = q.new; job = removed.new; error = result } ≡ taken q.old }
{
    queue_in_place::trpc_queue_take(q, removed)
}

// Removes the job of a pair.
#[unsafe(no_mangle)]
pub extern "C" fn trpc_queue_cancel(
    q: &mut Queue,
    connection: u32,
    request: u32,
    removed: &mut Job,
) -> u32
    ensures { record { queue = q.new; job = removed.new; error = result }
        ≡ cancelled q.old connection request }
{
    queue_in_place::trpc_queue_cancel(q, connection, request, removed)
}
