// Ranks, in one pass from the front: a window's list begins where its parent's does, behind its earlier siblings' lists, and the
// window comes last in it.
ghost use Rattle.std.specs.Prelude.{◌≡◌, ◌≤◌, length};
ghost use Rattle.sequences.specs.Table.{table, overwritten, Holds};
ghost use Rattle.interval_graph.specs.Forest.{size, rank};
ghost use Rattle.plan.specs.Validation.{greatest_count};
ghost use Rattle.forest.specs.Parents.{parent_in, covered};

use crate::parents::{entries_covered, parent_at};
use crate::sizes::add_sizes;
use plan::GREATEST_COUNT;

// `next` is scratch of at least as many entries: for each window so far, where the list of its next child begins. A window's size is
// set aside for it in its parent's list.
fn assign_ranks(parents: &[u16], entries: usize, sizes: &[u16], next: &mut [u16], ranks: &mut [u16])
    requires entries_le_greatest_count { entries ≤ greatest_count }
    requires entries_in_bounds { entries ≤ length parents.now }
    requires holds { Holds sizes.now (size entries (parent_in parents.now)) entries }
    requires entries_in_next { entries ≤ length next.old }
    requires entries_in_ranks { entries ≤ length ranks.old }
    ensures { ranks.new ≡ overwritten ranks.old (table (rank entries (parent_in parents.now)) entries) }
{
    for position in 0..entries {
        let parent = parent_at(parents, position);
        let size = sizes[position];
        let mut start = 0;
        if parent < position {
            start = next[parent];
            next[parent] = start + size;
        }
        next[position] = start;
        ranks[position] = start + size - 1;
    }
}

/// All ranks, by the sizes.
pub fn fill_ranks(parents: &[u16], entries: usize, ranks: &mut [u16])
    ensures { ranks.new ≡ overwritten ranks.old (table (rank (covered entries (length parents.now) (length ranks.old)) (parent_in parents.now)) (covered entries (length parents.now) (length ranks.old))) }
{
    let end = entries_covered(entries, parents.len(), ranks.len());
    let mut sizes = [1; GREATEST_COUNT];
    let mut next = [0; GREATEST_COUNT];
    add_sizes(parents, end, &mut sizes);
    assign_ranks(parents, end, &sizes, &mut next, ranks);
}
