// Examples of the rules, the refusals and the reasons over whole months, by computation: see `proofs/`. They stand in a crate
// of their own, since each takes seconds to work out, and an edit proves its whole crate again.
#![tactic(auto)]
