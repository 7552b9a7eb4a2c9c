// The short tags of an even plan.
#![tactic(auto)]

mod filling;
mod tagging;

pub use filling::short_tag_file;
pub use numbering::Built;
