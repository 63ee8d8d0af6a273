// What a controller is promised of its queue, over any calls of `trpc_queue_init`, `trpc_queue_add`, `trpc_queue_take` and
// `trpc_queue_cancel`: `queue_promise`. Definitions and theorems, no code.
#![tactic(auto)]
