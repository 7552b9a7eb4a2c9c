// Parents and lasts of a plan's windows, from their minutes.
#![tactic(auto)]

mod evens;
mod lasts;
mod parents;
mod rooted;
mod tables;
mod windows;

pub use evens::even_parents;
pub use lasts::last_table;
pub use parents::parent_table;
pub use rooted::Rooted;
pub use tables::fill_tables;
