// Tags as bytes: read, written, and looked up in a tag file. It knows no plan and no second tag.
#![tactic(auto)]

mod label;
mod short_tag;
mod tag;
mod tag_file;

pub use label::Label;
pub use short_tag::ShortTag;
pub use tag::Tag;
pub use tag_file::{lookup, lookup_refusal};
