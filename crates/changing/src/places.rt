// Where an added window goes, and how many windows there are after a change.
ghost use Rattle.std.specs.Prelude.{◌≡◌, ◌≤◌};
ghost use Rattle.plan.specs.File.{window_count};
ghost use Rattle.plan.specs.Plan.{bytes_of};
ghost use Rattle.plan.specs.Validation.{greatest_count};
ghost use Rattle.changing.specs.Steps.{count_after, place_of};

use crate::records::Edit;
use plan::Plan;

// How many of the windows have at most this offset. These are the ones that stand first.
#[tactic(auto, using(crate::proofs::Placed::placing))]
pub(crate) fn place_of(plan: &Plan, offset: u32) -> u16
    ensures { result ≡ place_of (bytes_of plan.now) (window_count (bytes_of plan.now)) offset }
{
    let mut place = 0;
    for position in 0..plan.len() {
        if plan.window(position).unwrap().offset <= offset {
            place += 1;
        }
    }
    place
}

#[tactic(auto, unfolding(crate::specs::Steps::count_after))]
pub(crate) fn count_after(edit: Edit, windows: u16) -> u16
    requires { windows ≤ greatest_count }
    ensures { result ≡ count_after edit windows }
{
    match edit {
        Edit::Add(_) => windows + 1,
        Edit::Withdraw(_) => windows.saturating_sub(1),
    }
}
