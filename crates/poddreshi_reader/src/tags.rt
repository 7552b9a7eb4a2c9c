// The calls on tags: two tags, a tag file, one tag to be written.
ghost use Rattle.std.specs.Prelude.{◌≡◌};
ghost use Rattle.tag.specs.Pairing.{pair_answer_of, pair_at_answer_of};
ghost use Rattle.short_tag.specs.ShortPairing.{short_pair_answer_of, short_pair_at_answer_of};
ghost use Rattle.tag_bytes.specs.TagFile.{lookup_answer_of};
ghost use Rattle.tag_bytes.specs.Writing.{write_answer_of, after_write, short_write_answer_of, after_short_write};
ghost use Rattle.packing.specs.Packing.{packed_pair, packed_lookup, packed_write};
ghost use Rattle.poddreshi_reader.specs.Lent.{offset_after};

use packing::{Done, Packed};
use tag::{Label, ShortTag, Tag};

/// The answer from the bytes of two tags.
pub fn poddreshi_pair(first: &[u8], second: &[u8]) -> u64
    ensures { result ≡ packed_pair (pair_answer_of first.now second.now) }
{
    tag::pair::<Tag>(first, second).pack()
}

/// The answer from the tags at two positions of a tag file. It does as `tag::pair_at`, but by the call above: the rule is then
/// compiled once, with its packing, and a pair takes 31 instructions less.
// The loop of a page takes it in, and asks question 9 once before it: a record takes fourteen instructions less.
#[inline(always)]
#[tactic(auto, unfolding(tag::specs::Pairing::pair_at_by, tag::specs::Pairing::pair_answer_by, tag_bytes::specs::TagFile::looked_up))]
pub fn poddreshi_pair_at(tags: &[u8], first: usize, second: usize) -> u64
    ensures { result ≡ packed_pair (pair_at_answer_of tags.now first second) }
{
    match tag::ask_places::<Tag>(tags, first, second) {
        Ok(()) => poddreshi_pair(
            tag::lookup::<Tag>(tags, first),
            tag::lookup::<Tag>(tags, second),
        ),
        Err(refusal) => refusal.pack(),
    }
}

/// Where in a tag file the tag at a position begins. `tag::lookup` hands back the part that begins there; a part does not
/// cross into C.
pub fn poddreshi_lookup(tags: &[u8], at: usize, offset: &mut usize) -> u64
    ensures value { result ≡ packed_lookup (lookup_answer_of tags.now at) }
    ensures offset_after { offset.new ≡ offset_after (lookup_answer_of tags.now at) at offset.old }
{
    let answer = tag::lookup_refusal::<Tag>(tags, at);
    if answer.is_ok() {
        *offset = Tag::LENGTH * at;
    }
    answer.map(|()| Done::Found).pack()
}

/// Fills the first ten bytes of `out` with a tag.
pub fn poddreshi_write(
    plan: u16,
    component: u16,
    depth: u16,
    rank: u16,
    last: u16,
    out: &mut [u8],
) -> u64
    ensures value { result ≡ packed_write (write_answer_of (record { plan = plan; component = component; depth = depth; rank = rank; last = last }) out.old) }
    ensures out_after { out.new ≡ after_write (write_answer_of (record { plan = plan; component = component; depth = depth; rank = rank; last = last }) out.old) (record { plan = plan; component = component; depth = depth; rank = rank; last = last }) out.old }
{
    let tag = Tag {
        plan,
        component,
        depth,
        rank,
        last,
    };
    tag.write(out).map(|()| Done::Written).pack()
}

/// The answer from the bytes of two short tags.
pub fn poddreshi_short_pair(first: &[u8], second: &[u8]) -> u64
    ensures { result ≡ packed_pair (short_pair_answer_of first.now second.now) }
{
    short_tag::short_pair(first, second).pack()
}

/// The answer from the short tags at two positions of a file of them, by the call above for the same reason: a short
/// pair takes 65 instructions so, and 87 by two callers of the generic pair.
#[tactic(auto, unfolding(tag::specs::Pairing::pair_at_by, tag::specs::Pairing::pair_answer_by, tag_bytes::specs::TagFile::looked_up))]
pub fn poddreshi_short_pair_at(tags: &[u8], first: usize, second: usize) -> u64
    ensures { result ≡ packed_pair (short_pair_at_answer_of tags.now first second) }
{
    match tag::ask_places::<ShortTag>(tags, first, second) {
        Ok(()) => poddreshi_short_pair(
            tag::lookup::<ShortTag>(tags, first),
            tag::lookup::<ShortTag>(tags, second),
        ),
        Err(refusal) => refusal.pack(),
    }
}

/// Fills the first eight bytes of `out` with a short tag.
pub fn poddreshi_short_write(
    plan: u16,
    component: u16,
    depth: u16,
    rank: u16,
    out: &mut [u8],
) -> u64
    ensures value { result ≡ packed_write (short_write_answer_of (record { plan = plan; component = component; depth = depth; rank = rank }) out.old) }
    ensures out_after { out.new ≡ after_short_write (short_write_answer_of (record { plan = plan; component = component; depth = depth; rank = rank }) out.old) (record { plan = plan; component = component; depth = depth; rank = rank }) out.old }
{
    let short = ShortTag {
        plan,
        component,
        depth,
        rank,
    };
    short.write(out).map(|()| Done::Written).pack()
}
