// Answers from a plan: the chain between two windows.
#![tactic(auto)]

mod chains;
mod walk;

pub use chains::{chain, chain_in};
