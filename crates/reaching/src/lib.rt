// Reach: how many handovers apart the windows of a component are at most, and the first two that are.
#![tactic(auto)]

mod answers;
mod farthest;
mod levels;
mod overlaps;

pub use answers::Reach;
pub use farthest::reach;
