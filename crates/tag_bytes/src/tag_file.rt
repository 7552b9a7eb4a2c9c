// A tag looked up in a tag file, of long tags or of short ones: whether the file is whole tags, and whether the position is there.
ghost use Rattle.std.specs.Prelude.{◌≡◌, ◌/◌, ◌<◌, length};
ghost use Rattle.refusals.specs.Question.{asked_of};
ghost use Rattle.tag_bytes.specs.TagFile.{part_of, lookup_in, looked_up};

use crate::label::Label;
use refusals::{Question, Refusal};

/// Why a lookup hands back an empty part, or that it does not.
pub fn lookup_refusal<L: Label>(tags: &[u8], at: usize) -> Result<(), Refusal>
    ensures { result ≡ asked_of (lookup_in L.LENGTH tags.now at) }
{
    refusals::ask(Question::HasItsBytes, tags.len() % L::LENGTH == 0)?;
    // Dividing the length, and not multiplying the position, has no overflow at any position.
    refusals::ask(Question::IsThere, at < tags.len() / L::LENGTH)
}

// The bytes of the tag at a position that the file has.
fn part<L: Label>(tags: &[u8], at: usize) -> &[u8]
    requires { at < length tags.now / L.LENGTH }
    ensures { result.now ≡ part_of L.LENGTH tags.now at }
{
    let start = L::LENGTH * at;
    &tags[start..start + L::LENGTH]
}

/// The tag at a position, as a part of the tag file itself.
#[tactic(auto, unfolding(crate::specs::TagFile::looked_up))]
pub fn lookup<L: Label>(tags: &[u8], at: usize) -> &[u8]
    ensures { result.now ≡ looked_up L.LENGTH tags.now at }
{
    match lookup_refusal::<L>(tags, at) {
        Ok(()) => part::<L>(tags, at),
        Err(_) => &tags[0..0],
    }
}
