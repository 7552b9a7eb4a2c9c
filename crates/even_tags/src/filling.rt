// The short tags of an even plan: its parents, and then the passes over them. Lasts are not asked for.
ghost use Rattle.std.specs.Prelude.{◌≡◌, ◌*◌, ◌≤◌, length};
ghost use Rattle.sequences.specs.Table.{overwritten};
ghost use Rattle.plan.specs.File.{plan_number};
ghost use Rattle.tag_bytes.specs.Fields.{short_length};
ghost use Rattle.tag_bytes.specs.TagFile.{short_tag_file};
ghost use Rattle.numbering.specs.Tables.{component_count, numbers_at};
ghost use Rattle.even_tags.specs.Tagging.{Parented};
ghost use Rattle.even_tags.specs.ShortTags.{short_tags_answer_of, after_short_tags};

use crate::tagging::write_short_tags;
use numbering::Built;
use plan::GREATEST_COUNT;
use refusals::Refusal;
use tag_bytes::{Label, ShortTag};

// The short tags by the table of parents, of so many windows.
#[tactic(auto, unfolding(plan::specs::File::plan_number))]
fn tag_windows(file: &[u8], windows: u16, parents: &[u16], tags: &mut [u8]) -> Built
    requires parented { Parented file.now windows parents.now }
    requires windows_in_bounds { short_length * windows ≤ length tags.old }
    ensures value { result ≡ record { plan = plan_number file.now; windows = windows; components = component_count file.now } }
    ensures tags_after { tags.new ≡ overwritten tags.old (short_tag_file (numbers_at file.now) windows) }
{
    let mut components = [0; GREATEST_COUNT];
    let mut depths = [0; GREATEST_COUNT];
    let mut ranks = [0; GREATEST_COUNT];
    let n = usize::from(windows);
    let found = forest::fill_levels(parents, n, &mut components, &mut depths);
    forest::fill_ranks(parents, n, &mut ranks);
    let plan = wire::read_u16(file, 0);
    write_short_tags(n, plan, &components, &depths, &ranks, tags);
    Built {
        plan,
        windows,
        components: found,
    }
}

/// The file of a plan's short tags.
#[tactic(auto, using(crate::proofs::Shortened::short_answered), unfolding(crate::specs::ShortTags::after_short_tags))]
pub fn short_tag_file(file: &[u8], tags: &mut [u8]) -> Result<Built, Refusal>
    ensures value { result ≡ short_tags_answer_of file.now (length tags.old) }
    ensures tags_after { tags.new ≡ after_short_tags result (numbers_at file.now) tags.old }
{
    let mut parents = [0; GREATEST_COUNT];
    let room = tags.len() / ShortTag::LENGTH;
    let windows = minutes::even_parents(file, room, &mut parents)?;
    Ok(tag_windows(file, windows, &parents, tags))
}
