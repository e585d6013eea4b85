// What the request says of the new form of the sheet, in specs/Paper: statements and their proofs, no code. Apart from `newsheet`, so that an edit of
// a statement is checked here alone, in seconds.
#![tactic(auto)]
