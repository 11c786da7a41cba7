//! What every law of the stack's rules needs to know of the live lists: which numbers are live, that
//! they differ, and how each change of the list of things shows in the live lists and in counts over
//! them. It has no code: definitions stand in specs/, lemmas in proofs/.
#![tactic(auto)]
