// The calls of the C interface that need no plan, which `poddreshi_reader_c` exports: what a reader links. Each takes numbers and slices
// alone, is total, and answers with one number of 64 bits, which include/poddreshi.h unpacks.
#![tactic(auto)]

mod pages;
mod tags;

pub use pages::{PackedQuery, poddreshi_page};
pub use tags::{
    poddreshi_lookup, poddreshi_pair, poddreshi_pair_at, poddreshi_short_pair,
    poddreshi_short_pair_at, poddreshi_short_write, poddreshi_write,
};
