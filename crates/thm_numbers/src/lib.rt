// Which refusal numbers an answer can hold, of all entries together: `given_in_use`, `never_retired`, `never_twenty`. Definitions and
// theorems, no code.
#![tactic(auto)]
