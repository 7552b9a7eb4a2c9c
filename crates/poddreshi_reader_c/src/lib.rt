// The calls of the library `poddreshi_reader`, exported to C under the same names and with the same promises.
#![tactic(auto)]

ghost use Rattle.std.specs.Prelude.{◌≡◌};
ghost use Rattle.packing.specs.Packing.{packed_lookup, packed_page, packed_pair, packed_write};
ghost use Rattle.page.specs.Page.{page_answer_of};
ghost use Rattle.poddreshi_reader.specs.Lent.{offset_after};
ghost use Rattle.poddreshi_reader.specs.Pages.{after_packed_page};
ghost use Rattle.short_tag.specs.ShortPairing.{short_pair_answer_of, short_pair_at_answer_of};
ghost use Rattle.tag.specs.Pairing.{pair_answer_of, pair_at_answer_of};
ghost use Rattle.tag_bytes.specs.TagFile.{lookup_answer_of};
ghost use Rattle.tag_bytes.specs.Writing.{after_short_write, after_write, short_write_answer_of, write_answer_of};

use poddreshi_reader::PackedQuery;

/// Fills every record of a page with the answer for its two positions.
#[unsafe(no_mangle)]
pub extern "C" fn poddreshi_page(tags: &[u8], queries: &mut [PackedQuery]) -> u64
    ensures value { result ≡ packed_page (page_answer_of tags.now) }
    ensures queries_after { queries.new ≡ after_packed_page (page_answer_of tags.now) tags.now queries.old }
{
    poddreshi_reader::poddreshi_page(tags, queries)
}

/// The answer from the bytes of two tags.
#[unsafe(no_mangle)]
pub extern "C" fn poddreshi_pair(first: &[u8], second: &[u8]) -> u64
    ensures { result ≡ packed_pair (pair_answer_of first.now second.now) }
{
    poddreshi_reader::poddreshi_pair(first, second)
}

/// The answer from the tags at two positions of a tag file.
#[unsafe(no_mangle)]
pub extern "C" fn poddreshi_pair_at(tags: &[u8], first: usize, second: usize) -> u64
    ensures { result ≡ packed_pair (pair_at_answer_of tags.now first second) }
{
    poddreshi_reader::poddreshi_pair_at(tags, first, second)
}

/// Where in a tag file the tag at a position begins.
#[unsafe(no_mangle)]
pub extern "C" fn poddreshi_lookup(tags: &[u8], at: usize, offset: &mut usize) -> u64
    ensures value { result ≡ packed_lookup (lookup_answer_of tags.now at) }
    ensures offset_after { offset.new ≡ offset_after (lookup_answer_of tags.now at) at offset.old }
{
    poddreshi_reader::poddreshi_lookup(tags, at, offset)
}

/// Fills the first ten bytes of `out` with a tag.
#[unsafe(no_mangle)]
pub extern "C" fn poddreshi_write(
    plan: u16,
    component: u16,
    depth: u16,
    rank: u16,
    last: u16,
    out: &mut [u8],
) -> u64
    ensures value { result ≡ packed_write (write_answer_of (record { plan = plan; component = component; depth = depth; rank = rank; last = last }) out.old) }
    ensures out_after { out.new ≡ after_write (write_answer_of (record { plan = plan; component = component; depth = depth; rank = rank; last = last }) out.old) (record { plan = plan; component = component; depth = depth; rank = rank; last = last }) out.old }
{
    poddreshi_reader::poddreshi_write(plan, component, depth, rank, last, out)
}

/// The answer from the bytes of two short tags.
#[unsafe(no_mangle)]
pub extern "C" fn poddreshi_short_pair(first: &[u8], second: &[u8]) -> u64
    ensures { result ≡ packed_pair (short_pair_answer_of first.now second.now) }
{
    poddreshi_reader::poddreshi_short_pair(first, second)
}

/// The answer from the short tags at two positions of a file of them.
#[unsafe(no_mangle)]
pub extern "C" fn poddreshi_short_pair_at(tags: &[u8], first: usize, second: usize) -> u64
    ensures { result ≡ packed_pair (short_pair_at_answer_of tags.now first second) }
{
    poddreshi_reader::poddreshi_short_pair_at(tags, first, second)
}

/// Fills the first eight bytes of `out` with a short tag.
#[unsafe(no_mangle)]
pub extern "C" fn poddreshi_short_write(
    plan: u16,
    component: u16,
    depth: u16,
    rank: u16,
    out: &mut [u8],
) -> u64
    ensures value { result ≡ packed_write (short_write_answer_of (record { plan = plan; component = component; depth = depth; rank = rank }) out.old) }
    ensures out_after { out.new ≡ after_short_write (short_write_answer_of (record { plan = plan; component = component; depth = depth; rank = rank }) out.old) (record { plan = plan; component = component; depth = depth; rank = rank }) out.old }
{
    poddreshi_reader::poddreshi_short_write(plan, component, depth, rank, out)
}
