// The plan file: its header and its windows, read and written, and whether it is accepted.
#![tactic(auto)]

mod figures;
mod header;
mod plan_file;
mod questions;
mod windows;

pub use figures::{GREATEST_COUNT, GREATEST_END, HEADER_LENGTH, WINDOW_LENGTH};
pub use header::{minimum_handover, write_header};
pub use plan_file::Plan;
pub use questions::{Accepted, validate};
pub use windows::{Window, window_at, window_place};
