// The desk program's answers, as definitions and statements (specs/) with their proofs. No code: the functions that write them into a
// text are the crate `answers`. So an edit of a definition is refused without checking those again.
#![tactic(auto)]
