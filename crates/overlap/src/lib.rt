// When two windows of a plan overlap, and by how much.
#![tactic(auto)]

mod margins;
mod overlaps;

pub use margins::{margin, window_margin};
pub use overlaps::reaches;
