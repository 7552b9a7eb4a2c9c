// What the passes read of a plan's windows: the bound of each, and the offsets as a table.
ghost use Rattle.std.specs.Prelude.{◌≡◌, ◌≤◌, ◌<◌, length};
ghost use Rattle.sequences.specs.Table.{table, overwritten};
ghost use Rattle.plan.specs.File.{window_count, window_at};
ghost use Rattle.plan.specs.Plan.{bytes_of};
ghost use Rattle.minutes.specs.Tables.{offset_at, bound_at};

use plan::{Plan, WINDOW_LENGTH, Window};

// The window at a position that has one. `Plan::window` would test the position again: in a loop up to `len` the compiler drops that test,
// but where the finger of the parents steps on (`first_past`) it stays, and reach on sparse plans takes a quarter longer.
#[tactic(auto, using(plan::proofs::Acceptance::whole_file, plan::proofs::Acceptance::few_windows), unfolding(plan::specs::File::window_at))]
fn window_at(plan: &Plan, position: usize) -> Window
    requires { position < window_count (bytes_of plan.now) }
    ensures { result ≡ window_at (bytes_of plan.now) position }
{
    let place = plan::window_place(position as u16);
    Window::read(&plan.bytes()[place..place + WINDOW_LENGTH])
}

// What a later window that overlaps the one at a position begins before. In an accepted plan no minimum is past an end, and bounds fit 32
// bits.
#[tactic(auto, using(crate::proofs::Reading::bound_formed), unfolding(crate::specs::Tables::bound_at, overlap::specs::Overlap::bound_of))]
pub(crate) fn bound_at(plan: &Plan, position: usize) -> u32
    requires { position < window_count (bytes_of plan.now) }
    ensures { result ≡ bound_at (bytes_of plan.now) position }
{
    let end = window_at(plan, position).end();
    (end - (u64::from(plan.minimum()) - 1)) as u32
}

#[tactic(auto, using(sequences::proofs::Table::by_table), unfolding(crate::specs::Tables::offset_at))]
pub(crate) fn read_offsets(plan: &Plan, offsets: &mut [u32])
    requires { window_count (bytes_of plan.now) ≤ length offsets.old }
    ensures { offsets.new ≡ overwritten offsets.old (table (offset_at (bytes_of plan.now)) (window_count (bytes_of plan.now))) }
{
    for position in 0..plan.len() {
        offsets[position] = plan.window(position).unwrap().offset;
    }
}
