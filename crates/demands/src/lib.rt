// What the whole guarantees: the three demands are stated in specs/ and proved in proofs/. Beside them stands one function that
// runs all of it on a file and two positions, and whose contract is demand 3 itself.
#![tactic(auto)]

mod end_to_end;

pub use end_to_end::{Answers, answer_all};
