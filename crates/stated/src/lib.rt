// What the paper says of the sheet, as statements over the promises of `sheet` (specs/) with their proofs. No code: an edit of a
// statement is refused without checking the code again, and one of the code, or of a definition alone, without checking these.
#![tactic(auto)]
