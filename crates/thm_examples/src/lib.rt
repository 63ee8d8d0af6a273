// Document 01's checked examples, as rows of one table under one statement. A theorem only, no code.
#![tactic(auto)]
