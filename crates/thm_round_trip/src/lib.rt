// What the writer accepts reads back as the same record, when it refuses, and that what a reader hands out lies within the frame. Theorems
// about `writer::write`, `reader::read` and `message::read_spans`, and no code.
#![tactic(auto)]
