// A file of short tags: the tags of the windows in order of position, from the tables of their numbers.
ghost use Rattle.std.specs.Prelude.{◌≡◌, ◌*◌, ◌≤◌, length};
ghost use Rattle.sequences.specs.Table.{overwritten};
ghost use Rattle.tag_bytes.specs.Fields.{short_length};
ghost use Rattle.tag_bytes.specs.TagFile.{short_tag_file};
ghost use Rattle.even_tags.specs.Tagging.{short_numbers_in, Numbered};

use tag_bytes::{Label, ShortTag};

// The twin of `tree`'s `write_tags`, which says why there are two.
pub(crate) fn write_short_tags(
    windows: usize,
    plan: u16,
    components: &[u16],
    depths: &[u16],
    ranks: &[u16],
    tags: &mut [u8],
)
    requires numbered { Numbered windows plan components.now depths.now ranks.now }
    requires windows_in_bounds { short_length * windows ≤ length tags.old }
    ensures { tags.new ≡ overwritten tags.old (short_tag_file (short_numbers_in plan components.now depths.now ranks.now) windows) }
{
    for position in 0..windows {
        let tag = ShortTag {
            plan,
            component: components[position],
            depth: depths[position],
            rank: ranks[position],
        };
        tag.write(&mut tags[ShortTag::LENGTH * position..]).unwrap();
    }
}
