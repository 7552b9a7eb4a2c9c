// Each answer as one number of 64 bits, as it crosses into C.
#![tactic(auto)]

mod answers;
mod kind;
mod packed;

pub use answers::{Chain, Done, Neighbours, Sameness};
pub use packed::Packed;
