// No code: windows as the positions 0 … n - 1 of a graph, with an overlap test between them. The
// definitions are in specs/ and their laws in proofs/.
#![tactic(auto)]
