// The distance tree of a plan: its five tables and its tag file.
#![tactic(auto)]

mod building;
mod tagging;

pub use building::{build, tag_file};
pub use minutes::{last_table, parent_table};
pub use numbering::Built;
