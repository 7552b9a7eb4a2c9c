// The numbers of a plan's windows: the five tables of its distance tree.
#![tactic(auto)]

mod filling;

pub use filling::{Built, fill_numbers};
