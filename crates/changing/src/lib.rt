// Changes of a plan: a window is added or withdrawn, and the changed plan is written with its tag file.
#![tactic(auto)]

mod applying;
mod places;
mod questions;
mod records;
mod writing;

pub use applying::apply;
pub use numbering::Built;
pub use records::{Change, Edit};
