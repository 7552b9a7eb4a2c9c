// The number of windows under each window, itself included, in one pass from the end: all under a window stand after it.
ghost use Rattle.std.specs.Prelude.{◌≤◌, length};
ghost use Rattle.sequences.specs.Table.{Holds};
ghost use Rattle.interval_graph.specs.Forest.{size};
ghost use Rattle.plan.specs.Validation.{greatest_count};
ghost use Rattle.forest.specs.Parents.{parent_in};

use crate::parents::parent_at;

// `sizes` comes with 1 for each window. A child's size is added to its parent's; a root has none to add to.
pub(crate) fn add_sizes(parents: &[u16], entries: usize, sizes: &mut [u16])
    requires entries_le_greatest_count { entries ≤ greatest_count }
    requires entries_in_bounds { entries ≤ length parents.now }
    requires holds { Holds sizes.old (λ _. 1) entries }
    ensures { Holds sizes.new (size entries (parent_in parents.now)) entries }
{
    for position in (0..entries).rev() {
        let parent = parent_at(parents, position);
        if parent < position {
            sizes[parent] += sizes[position];
        }
    }
}
