// The calls of the C interface on plan files, which `poddreshi_c` exports. Each takes numbers and slices alone, is total, and answers with
// one number of 64 bits, which include/poddreshi.h unpacks.
#![tactic(auto)]

mod changes;
mod plans;

pub use changes::{poddreshi_add, poddreshi_withdraw};
pub use plans::{
    poddreshi_build, poddreshi_chain, poddreshi_margin, poddreshi_neighbours, poddreshi_reach,
    poddreshi_same, poddreshi_short_tags, poddreshi_tags, poddreshi_validate,
};
