// What the calls say of one another, as statements over the promises of several of them (specs/) with their proofs. No code.
#![tactic(auto)]
