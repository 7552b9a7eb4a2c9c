// A page of pairs: a lent list of records, each filled with the answer for its two positions.
#![tactic(auto)]

mod query;
mod records;

pub use query::{Query, page};
pub use records::{Record, ask, fill, to_fill};
