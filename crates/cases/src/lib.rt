// Document 01, section 9: case A and the marked cases. The statement is `Cases` in specs/Cases.antt, its proof `cases` in proofs/Cases.antt. There is
// no code. It is a crate of its own so that a must-fail edit of another crate does not prove it again.
#![tactic(auto)]
