// The calls on plan files.
ghost use Rattle.std.specs.Prelude.{◌≡◌, length};
ghost use Rattle.plan.specs.Validation.{validate_answer_of};
ghost use Rattle.overlap.specs.Margin.{margin_answer_of};
ghost use Rattle.minutes.specs.Tables.{parent_of};
ghost use Rattle.numbering.specs.Tables.{component_of, depth_of, rank_of, last_rank_of, numbers_at};
ghost use Rattle.numbering.specs.Numbering.{after_build};
ghost use Rattle.tree.specs.Build.{after_tags, tags_answer_of};
ghost use Rattle.even_tags.specs.ShortTags.{short_tags_answer_of, after_short_tags};
ghost use Rattle.reaching.specs.Reach.{reach_answer_of};
ghost use Rattle.path.specs.Chain.{chain_between, chain_answer_of, after_chain};
ghost use Rattle.neighbouring.specs.Neighbours.{neighbours_of, neighbours_answer_of, after_neighbours};
ghost use Rattle.sameness.specs.Sameness.{same_answer_of};
ghost use Rattle.packing.specs.Packing.{packed_validation, packed_build, packed_reach, packed_chain, packed_neighbours, packed_margin, packed_same};
ghost use Rattle.poddreshi.specs.Lent.{built_in, margin_after};

use packing::{Chain, Done, Neighbours, Packed, Sameness};

/// Whether a file is that of an accepted plan.
pub fn poddreshi_validate(file: &[u8]) -> u64
    ensures { result ≡ packed_validation (validate_answer_of file.now) }
{
    plan::validate(file).pack()
}

/// The five tables and the tag file of a plan.
pub fn poddreshi_build(
    file: &[u8],
    parents: &mut [u16],
    components: &mut [u16],
    depths: &mut [u16],
    ranks: &mut [u16],
    last_ranks: &mut [u16],
    tags: &mut [u8],
) -> u64
    ensures value { result ≡ packed_build (built_in file.now parents.old components.old depths.old ranks.old last_ranks.old tags.old) }
    ensures parents_after { parents.new ≡ after_build (built_in file.now parents.old components.old depths.old ranks.old last_ranks.old tags.old) (parent_of file.now) parents.old }
    ensures components_after { components.new ≡ after_build (built_in file.now parents.old components.old depths.old ranks.old last_ranks.old tags.old) (component_of file.now) components.old }
    ensures depths_after { depths.new ≡ after_build (built_in file.now parents.old components.old depths.old ranks.old last_ranks.old tags.old) (depth_of file.now) depths.old }
    ensures ranks_after { ranks.new ≡ after_build (built_in file.now parents.old components.old depths.old ranks.old last_ranks.old tags.old) (rank_of file.now) ranks.old }
    ensures last_ranks_after { last_ranks.new ≡ after_build (built_in file.now parents.old components.old depths.old ranks.old last_ranks.old tags.old) (last_rank_of file.now) last_ranks.old }
    ensures tags_after { tags.new ≡ after_tags (built_in file.now parents.old components.old depths.old ranks.old last_ranks.old tags.old) (numbers_at file.now) tags.old }
{
    tree::build(file, parents, components, depths, ranks, last_ranks, tags).pack()
}

/// The tag file of a plan.
pub fn poddreshi_tags(file: &[u8], tags: &mut [u8]) -> u64
    ensures value { result ≡ packed_build (tags_answer_of file.now (length tags.old)) }
    ensures tags_after { tags.new ≡ after_tags (tags_answer_of file.now (length tags.old)) (numbers_at file.now) tags.old }
{
    tree::tag_file(file, tags).pack()
}

/// The file of an even plan's short tags.
pub fn poddreshi_short_tags(file: &[u8], tags: &mut [u8]) -> u64
    ensures value { result ≡ packed_build (short_tags_answer_of file.now (length tags.old)) }
    ensures tags_after { tags.new ≡ after_short_tags (short_tags_answer_of file.now (length tags.old)) (numbers_at file.now) tags.old }
{
    even_tags::short_tag_file(file, tags).pack()
}

/// The greatest number of handovers between two windows of a position's component, and the first pair that has it.
pub fn poddreshi_reach(file: &[u8], at: usize) -> u64
    ensures { result ≡ packed_reach (reach_answer_of file.now at) }
{
    reaching::reach(file, at).pack()
}

/// The shortest chain between two windows that has the earliest window at each step, from the later to the earlier.
pub fn poddreshi_chain(file: &[u8], first: usize, second: usize, out: &mut [u16]) -> u64
    ensures value { result ≡ packed_chain (chain_answer_of file.now first second (length out.old)) }
    ensures out_after { out.new ≡ after_chain (chain_answer_of file.now first second (length out.old)) (chain_between file.now first second) out.old }
{
    path::chain(file, first, second, out).map(Chain).pack()
}

/// The positions that overlap one window, rising, without itself.
pub fn poddreshi_neighbours(file: &[u8], at: usize, out: &mut [u16]) -> u64
    ensures value { result ≡ packed_neighbours (neighbours_answer_of file.now at (length out.old)) }
    ensures out_after { out.new ≡ after_neighbours (neighbours_answer_of file.now at (length out.old)) (neighbours_of file.now at) out.old }
{
    neighbouring::neighbours(file, at, out)
        .map(Neighbours)
        .pack()
}

/// The margin of two windows, which may be one: the smaller end less the greater offset.
pub fn poddreshi_margin(file: &[u8], first: usize, second: usize, margin: &mut i64) -> u64
    ensures value { result ≡ packed_margin (margin_answer_of file.now first second) }
    ensures margin_after { margin.new ≡ margin_after (margin_answer_of file.now first second) margin.old }
{
    let answer = overlap::margin(file, first, second);
    if let Ok(minutes) = answer {
        *margin = minutes;
    }
    answer.map(|_| Done::Measured).pack()
}

/// Whether two plans are the same.
pub fn poddreshi_same(first: &[u8], second: &[u8]) -> u64
    ensures { result ≡ packed_same (same_answer_of first.now second.now) }
{
    sameness::same(first, second).map(Sameness).pack()
}
