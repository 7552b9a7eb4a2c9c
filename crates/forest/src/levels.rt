// Components and depths, in one pass from the front: a parent stands before its window.
ghost use Rattle.std.specs.Prelude.{◌≡◌, min, length};
ghost use Rattle.sequences.specs.Search.{count};
ghost use Rattle.sequences.specs.Table.{table, overwritten};
ghost use Rattle.interval_graph.specs.Forest.{is_root, component, depth};
ghost use Rattle.forest.specs.Parents.{parent_in, covered};

use crate::parents::{entries_covered, parent_at};

/// Answers with the number of roots, which is that of components.
#[tactic(auto, using(sequences::proofs::Table::by_table, crate::proofs::Leveled::by_level))]
pub fn fill_levels(
    parents: &[u16],
    entries: usize,
    components: &mut [u16],
    depths: &mut [u16],
) -> u16
    ensures value { result ≡ count (is_root (parent_in parents.now)) (min (covered entries (length parents.now) (length components.old)) (length depths.old)) }
    ensures components_after { components.new ≡ overwritten components.old (table (component (parent_in parents.now)) (min (covered entries (length parents.now) (length components.old)) (length depths.old))) }
    ensures depths_after { depths.new ≡ overwritten depths.old (table (depth (parent_in parents.now)) (min (covered entries (length parents.now) (length components.old)) (length depths.old))) }
{
    let end = entries_covered(entries, parents.len(), components.len()).min(depths.len());
    let mut roots = 0;
    for position in 0..end {
        let parent = parent_at(parents, position);
        if parent == position {
            components[position] = roots;
            depths[position] = 0;
            roots += 1;
        } else {
            components[position] = components[parent];
            depths[position] = depths[parent] + 1;
        }
    }
    roots
}
