// What a caller in C is promised of the exported functions, by their contracts only: demands 2 and 3, and what each returns. Theorems, and
// no code.
#![tactic(auto)]
