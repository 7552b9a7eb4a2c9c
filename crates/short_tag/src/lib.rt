// The reader's library for short tags, which even plans have: read, written and answered from. It knows no plan and keeps no state.
#![tactic(auto)]

mod pairs;

pub use pairs::{short_pair, short_pair_at};
pub use tag::{Label, PairAnswer, ShortTag, lookup, lookup_refusal};
