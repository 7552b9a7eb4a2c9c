// The calls of the library `poddreshi`, exported to C under the same names and with the same promises.
#![tactic(auto)]

ghost use Rattle.std.specs.Prelude.{length, ◌≡◌};
ghost use Rattle.changing.specs.Change.{adding, changed_file, withdrawing};
ghost use Rattle.changing.specs.Questions.{after_change};
ghost use Rattle.even_tags.specs.ShortTags.{after_short_tags, short_tags_answer_of};
ghost use Rattle.minutes.specs.Tables.{parent_of};
ghost use Rattle.neighbouring.specs.Neighbours.{after_neighbours, neighbours_answer_of, neighbours_of};
ghost use Rattle.numbering.specs.Numbering.{after_build};
ghost use Rattle.numbering.specs.Tables.{component_of, depth_of, last_rank_of, numbers_at, rank_of};
ghost use Rattle.overlap.specs.Margin.{margin_answer_of};
ghost use Rattle.packing.specs.Packing.{packed_build, packed_chain, packed_margin, packed_neighbours, packed_reach, packed_same, packed_validation};
ghost use Rattle.path.specs.Chain.{after_chain, chain_answer_of, chain_between};
ghost use Rattle.plan.specs.Validation.{validate_answer_of};
ghost use Rattle.poddreshi.specs.Lent.{built_in, changed_in, margin_after};
ghost use Rattle.reaching.specs.Reach.{reach_answer_of};
ghost use Rattle.sameness.specs.Sameness.{same_answer_of};
ghost use Rattle.tree.specs.Build.{after_tags, tags_answer_of};

/// The plan with the window of this offset and so many minutes.
#[unsafe(no_mangle)]
pub extern "C" fn poddreshi_add(
    file: &[u8],
    plan: u16,
    offset: u32,
    minutes: u32,
    changed: &mut [u8],
    tags: &mut [u8],
) -> u64
    ensures value { result ≡ packed_build (changed_in file.now (adding plan (record { offset = offset; length = minutes })) changed.old tags.old) }
    ensures changed_after { changed.new ≡ after_change (changed_in file.now (adding plan (record { offset = offset; length = minutes })) changed.old tags.old) (changed_file file.now (adding plan (record { offset = offset; length = minutes }))) changed.old }
    ensures tags_after { tags.new ≡ after_tags (changed_in file.now (adding plan (record { offset = offset; length = minutes })) changed.old tags.old) (numbers_at (changed_file file.now (adding plan (record { offset = offset; length = minutes })))) tags.old }
{
    poddreshi::poddreshi_add(file, plan, offset, minutes, changed, tags)
}

/// The plan without the window at a position.
#[unsafe(no_mangle)]
pub extern "C" fn poddreshi_withdraw(
    file: &[u8],
    plan: u16,
    at: usize,
    changed: &mut [u8],
    tags: &mut [u8],
) -> u64
    ensures value { result ≡ packed_build (changed_in file.now (withdrawing plan at) changed.old tags.old) }
    ensures changed_after { changed.new ≡ after_change (changed_in file.now (withdrawing plan at) changed.old tags.old) (changed_file file.now (withdrawing plan at)) changed.old }
    ensures tags_after { tags.new ≡ after_tags (changed_in file.now (withdrawing plan at) changed.old tags.old) (numbers_at (changed_file file.now (withdrawing plan at))) tags.old }
{
    poddreshi::poddreshi_withdraw(file, plan, at, changed, tags)
}

/// Whether a file is that of an accepted plan.
#[unsafe(no_mangle)]
pub extern "C" fn poddreshi_validate(file: &[u8]) -> u64
    ensures { result ≡ packed_validation (validate_answer_of file.now) }
{
    poddreshi::poddreshi_validate(file)
}

/// The five tables and the tag file of a plan.
#[unsafe(no_mangle)]
pub extern "C" fn poddreshi_build(
    file: &[u8],
    parents: &mut [u16],
    components: &mut [u16],
    depths: &mut [u16],
    ranks: &mut [u16],
    last_ranks: &mut [u16],
    tags: &mut [u8],
) -> u64
    ensures value { result ≡ packed_build (built_in file.now parents.old components.old depths.old ranks.old last_ranks.old tags.old) }
    ensures parents_after { parents.new ≡ after_build (built_in file.now parents.old components.old depths.old ranks.old last_ranks.old tags.old) (parent_of file.now) parents.old }
    ensures components_after { components.new ≡ after_build (built_in file.now parents.old components.old depths.old ranks.old last_ranks.old tags.old) (component_of file.now) components.old }
    ensures depths_after { depths.new ≡ after_build (built_in file.now parents.old components.old depths.old ranks.old last_ranks.old tags.old) (depth_of file.now) depths.old }
    ensures ranks_after { ranks.new ≡ after_build (built_in file.now parents.old components.old depths.old ranks.old last_ranks.old tags.old) (rank_of file.now) ranks.old }
    ensures last_ranks_after { last_ranks.new ≡ after_build (built_in file.now parents.old components.old depths.old ranks.old last_ranks.old tags.old) (last_rank_of file.now) last_ranks.old }
    ensures tags_after { tags.new ≡ after_tags (built_in file.now parents.old components.old depths.old ranks.old last_ranks.old tags.old) (numbers_at file.now) tags.old }
{
    poddreshi::poddreshi_build(file, parents, components, depths, ranks, last_ranks, tags)
}

/// The tag file of a plan.
#[unsafe(no_mangle)]
pub extern "C" fn poddreshi_tags(file: &[u8], tags: &mut [u8]) -> u64
    ensures value { result ≡ packed_build (tags_answer_of file.now (length tags.old)) }
    ensures tags_after { tags.new ≡ after_tags (tags_answer_of file.now (length tags.old)) (numbers_at file.now) tags.old }
{
    poddreshi::poddreshi_tags(file, tags)
}

/// The file of an even plan's short tags.
#[unsafe(no_mangle)]
pub extern "C" fn poddreshi_short_tags(file: &[u8], tags: &mut [u8]) -> u64
    ensures value { result ≡ packed_build (short_tags_answer_of file.now (length tags.old)) }
    ensures tags_after { tags.new ≡ after_short_tags (short_tags_answer_of file.now (length tags.old)) (numbers_at file.now) tags.old }
{
    poddreshi::poddreshi_short_tags(file, tags)
}

/// The greatest number of handovers between two windows of a position's component, and the first pair that has it.
#[unsafe(no_mangle)]
pub extern "C" fn poddreshi_reach(file: &[u8], at: usize) -> u64
    ensures { result ≡ packed_reach (reach_answer_of file.now at) }
{
    poddreshi::poddreshi_reach(file, at)
}

/// The shortest chain between two windows that has the earliest window at each step, from the later to the earlier.
#[unsafe(no_mangle)]
pub extern "C" fn poddreshi_chain(file: &[u8], first: usize, second: usize, out: &mut [u16]) -> u64
    ensures value { result ≡ packed_chain (chain_answer_of file.now first second (length out.old)) }
    ensures out_after { out.new ≡ after_chain (chain_answer_of file.now first second (length out.old)) (chain_between file.now first second) out.old }
{
    poddreshi::poddreshi_chain(file, first, second, out)
}

/// The positions that overlap one window, rising, without itself.
#[unsafe(no_mangle)]
pub extern "C" fn poddreshi_neighbours(file: &[u8], at: usize, out: &mut [u16]) -> u64
    ensures value { result ≡ packed_neighbours (neighbours_answer_of file.now at (length out.old)) }
    ensures out_after { out.new ≡ after_neighbours (neighbours_answer_of file.now at (length out.old)) (neighbours_of file.now at) out.old }
{
    poddreshi::poddreshi_neighbours(file, at, out)
}

/// The margin of two windows, which may be one: the smaller end less the greater offset.
#[unsafe(no_mangle)]
pub extern "C" fn poddreshi_margin(
    file: &[u8],
    first: usize,
    second: usize,
    margin: &mut i64,
) -> u64
    ensures value { result ≡ packed_margin (margin_answer_of file.now first second) }
    ensures margin_after { margin.new ≡ margin_after (margin_answer_of file.now first second) margin.old }
{
    poddreshi::poddreshi_margin(file, first, second, margin)
}

/// Whether two plans are the same.
#[unsafe(no_mangle)]
pub extern "C" fn poddreshi_same(first: &[u8], second: &[u8]) -> u64
    ensures { result ≡ packed_same (same_answer_of first.now second.now) }
{
    poddreshi::poddreshi_same(first, second)
}
