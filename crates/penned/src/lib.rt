// The printed lines of "The listing program" and a sheet's listing, as definitions and statements (specs/) with their proofs. No code:
// the functions that write lines into a text are the crate `lines`. So an edit of a definition is refused without checking those again.
#![tactic(auto)]
