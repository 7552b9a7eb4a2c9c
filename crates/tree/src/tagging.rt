// The tag file: the tags of the windows in order of position, from the tables of their numbers.
ghost use Rattle.std.specs.Prelude.{◌≡◌, ◌*◌, ◌≤◌, length};
ghost use Rattle.sequences.specs.Table.{overwritten};
ghost use Rattle.tag_bytes.specs.Fields.{tag_length};
ghost use Rattle.tag_bytes.specs.TagFile.{tag_file};
ghost use Rattle.tree.specs.Tagging.{numbers_in, Numbered};

use tag_bytes::{Label, Tag};

// Short tags are written by a twin of this, in `even_tags`: from three tables, and not from four. One function for both would be public, and
// would have to take a closure and require of it that it may be called, where a public call here has no `requires` and takes whatever it is
// given. (The tables are handed on with how many of their entries count: they are longer, as lent or as scratch.)
pub(crate) fn write_tags(
    windows: usize,
    plan: u16,
    components: &[u16],
    depths: &[u16],
    ranks: &[u16],
    last_ranks: &[u16],
    tags: &mut [u8],
)
    requires numbered { Numbered windows plan components.now depths.now ranks.now last_ranks.now }
    requires windows_in_bounds { tag_length * windows ≤ length tags.old }
    ensures { tags.new ≡ overwritten tags.old (tag_file (numbers_in plan components.now depths.now ranks.now last_ranks.now) windows) }
{
    for position in 0..windows {
        let tag = Tag {
            plan,
            component: components[position],
            depth: depths[position],
            rank: ranks[position],
            last: last_ranks[position],
        };
        tag.write(&mut tags[Tag::LENGTH * position..]).unwrap();
    }
}
