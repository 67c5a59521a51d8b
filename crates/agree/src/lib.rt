// The places of a walk depend on the grid's own bytes alone: `place_same` in proofs/Places.antt. There is no code. It is a crate of its own so that a
// must-fail edit of another crate does not prove it again.
#![tactic(auto)]
