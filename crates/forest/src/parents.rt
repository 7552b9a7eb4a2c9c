// The parent of a position by its entry in the table, and how far a pass goes.
ghost use Rattle.std.specs.Prelude.{◌≡◌, ◌≤◌, ◌<◌, length};
ghost use Rattle.forest.specs.Parents.{parent_in, covered};

use plan::GREATEST_COUNT;

// The entry where it stands before its position; an entry that does not is read as that of a root. A root's is its own position, as in the table,
// and no Option: one comparison tells it.
#[tactic(auto, unfolding(crate::specs::Parents::parent_in))]
pub(crate) fn parent_at(parents: &[u16], position: usize) -> usize
    requires { position < length parents.now }
    ensures value { result ≡ parent_in parents.now position }
    ensures upper_bound { result ≤ position }
{
    usize::from(parents[position]).min(position)
}

// How many entries a pass over two tables goes through.
pub(crate) fn entries_covered(entries: usize, first: usize, second: usize) -> usize
    ensures { result ≡ covered entries first second }
{
    entries.min(GREATEST_COUNT).min(first).min(second)
}
