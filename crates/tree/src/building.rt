// Build: the five tables, and the tag file from them.
ghost use Rattle.std.specs.Prelude.{◌≡◌, length};
ghost use Rattle.minutes.specs.Tables.{parent_of};
ghost use Rattle.numbering.specs.Tables.{component_of, depth_of, rank_of, last_rank_of, numbers_at};
ghost use Rattle.numbering.specs.Numbering.{after_build};
ghost use Rattle.tree.specs.Build.{build_answer_of, tags_answer_of, after_tags};

use crate::tagging::write_tags;
use numbering::Built;
use plan::GREATEST_COUNT;
use refusals::Refusal;
use tag_bytes::{Label, Tag};

/// The five tables and the tag file of a plan.
// The tables are lent one by one, as C lends them: of a struct of six a clause could name a table by its place alone.
#[tactic(auto, using(crate::proofs::Answered::build_answered), unfolding(numbering::specs::Numbering::after_build, crate::specs::Build::after_tags))]
pub fn build(
    file: &[u8],
    parents: &mut [u16],
    components: &mut [u16],
    depths: &mut [u16],
    ranks: &mut [u16],
    last_ranks: &mut [u16],
    tags: &mut [u8],
) -> Result<Built, Refusal>
    ensures value { result ≡ build_answer_of file.now (length parents.old) (length components.old) (length depths.old) (length ranks.old) (length last_ranks.old) (length tags.old) }
    ensures parents_after { parents.new ≡ after_build result (parent_of file.now) parents.old }
    ensures components_after { components.new ≡ after_build result (component_of file.now) components.old }
    ensures depths_after { depths.new ≡ after_build result (depth_of file.now) depths.old }
    ensures ranks_after { ranks.new ≡ after_build result (rank_of file.now) ranks.old }
    ensures last_ranks_after { last_ranks.new ≡ after_build result (last_rank_of file.now) last_ranks.old }
    ensures tags_after { tags.new ≡ after_tags result (numbers_at file.now) tags.old }
{
    let room = tags.len() / Tag::LENGTH;
    let built = numbering::fill_numbers(
        file, room, parents, components, depths, ranks, last_ranks,
    )?;
    let n = usize::from(built.windows);
    write_tags(n, built.plan, components, depths, ranks, last_ranks, tags);
    Ok(built)
}

/// The tag file of a plan alone, for callers who do not want the tables.
#[tactic(auto, using(crate::proofs::Answered::tags_built))]
pub fn tag_file(file: &[u8], tags: &mut [u8]) -> Result<Built, Refusal>
    ensures value { result ≡ tags_answer_of file.now (length tags.old) }
    ensures tags_after { tags.new ≡ after_tags result (numbers_at file.now) tags.old }
{
    let mut parents = [0; GREATEST_COUNT];
    let mut components = [0; GREATEST_COUNT];
    let mut depths = [0; GREATEST_COUNT];
    let mut ranks = [0; GREATEST_COUNT];
    let mut last_ranks = [0; GREATEST_COUNT];
    build(
        file,
        &mut parents,
        &mut components,
        &mut depths,
        &mut ranks,
        &mut last_ranks,
        tags,
    )
}
