// No code: the vocabulary on lists and bounded searches that the crates above share. The definitions are in specs/ and their laws in
// proofs/.
#![tactic(auto)]
