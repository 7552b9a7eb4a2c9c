// One table's entries at the places that another names.
ghost use Rattle.std.specs.Prelude.{◌≡◌, min, length, get_or};
ghost use Rattle.sequences.specs.Table.{table, overwritten};
ghost use Rattle.plan.specs.Validation.{greatest_count};
ghost use Rattle.forest.specs.Parents.{looked_up};

use plan::GREATEST_COUNT;

// The entry at a place; 0 past the end.
fn entry_at(from: &[u16], at: usize) -> u16
    ensures { result ≡ get_or from.now at 0 }
{
    from.get(at).copied().unwrap_or(0)
}

/// Each place gives way to the entry that it names.
#[tactic(auto, using(sequences::proofs::Table::by_table))]
pub fn look_up(from: &[u16], entries: usize, places: &mut [u16])
    ensures { places.new ≡ overwritten places.old (table (looked_up from.now places.old) (min (min entries greatest_count) (length places.old))) }
{
    let end = entries.min(GREATEST_COUNT).min(places.len());
    for place in places[..end].iter_mut() {
        *place = entry_at(from, usize::from(*place));
    }
}
