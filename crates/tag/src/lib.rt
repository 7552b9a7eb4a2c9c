// The reader's library: tags, long and short, read, written, looked up in a tag file and answered from. It knows no plan and
// keeps no state.
#![tactic(auto)]

mod pairs;
mod rule;
mod short_rule;

pub use pairs::{PairAnswer, ask_places, pair, pair_at};
pub use rule::Ruled;
pub use tag_bytes::{Label, ShortTag, Tag, lookup, lookup_refusal};
