// Demand 3: what any list of calls of `deframe`, `finish` and `read` gives, of the definitions and of the functions by their contracts
// only. A theorem, and no code.
#![tactic(auto)]
