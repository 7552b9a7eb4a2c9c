// Numbers in bytes, lowest byte first.
#![tactic(auto)]

mod numbers;

pub use numbers::{read_u16, read_u32, write_u16, write_u32};
