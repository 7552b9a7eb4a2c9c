// The changed plan, written: its header, and the windows that stay as the bytes that they are.
ghost use Rattle.std.specs.Prelude.{◌≡◌, ◌+◌, ◌-◌, ◌≤◌, ◌<◌, length, take, drop};
ghost use Rattle.sequences.specs.Table.{overwritten};
ghost use Rattle.wire.specs.LittleEndian.{placed};
ghost use Rattle.plan.specs.File.{window_count};
ghost use Rattle.plan.specs.Plan.{bytes_of};
ghost use Rattle.plan.specs.Validation.{greatest_count};
ghost use Rattle.changing.specs.Change.{changed_file, adding, withdrawing};
ghost use Rattle.changing.specs.Questions.{AcceptedChange};

use crate::places::place_of;
use crate::records::{Change, Edit};
use plan::{HEADER_LENGTH, Plan, WINDOW_LENGTH, Window};

// Writes the bytes of a file from `from` up to, not including, `end` at `to`.
#[tactic(auto, using(crate::proofs::Written::part_copied))]
fn copy_part(file: &[u8], from: usize, end: usize, changed: &mut [u8], to: usize)
    requires from_le_end { from ≤ end }
    requires end_in_bounds { end ≤ length file.now }
    requires part_fits { to + (end - from) ≤ length changed.old }
    ensures { changed.new ≡ placed changed.old to (take (end - from) (drop from file.now)) }
{
    changed[to..to + (end - from)].copy_from_slice(&file[from..end]);
}

// The plan with a window more. How many bytes it has is returned.
#[tactic(auto, using(crate::proofs::Written::sizes))]
fn write_with(plan: &Plan, number: u16, window: Window, changed: &mut [u8]) -> usize
    requires few { window_count (bytes_of plan.now) < greatest_count }
    requires fits { length (changed_file (bytes_of plan.now) (adding number window)) ≤ length changed.old }
    ensures value { result ≡ length (changed_file (bytes_of plan.now) (adding number window)) }
    ensures changed_after { changed.new ≡ overwritten changed.old (changed_file (bytes_of plan.now) (adding number window)) }
{
    let file = plan.bytes();
    let windows = plan.count();
    plan::write_header(number, windows + 1, plan.minimum(), changed);
    let place = plan::window_place(place_of(plan, window.offset));
    copy_part(file, HEADER_LENGTH, place, changed, HEADER_LENGTH);
    window.write(changed, place);
    copy_part(file, place, file.len(), changed, place + WINDOW_LENGTH);
    file.len() + WINDOW_LENGTH
}

// The plan with a window less.
#[tactic(auto, using(crate::proofs::Written::sizes))]
fn write_without(plan: &Plan, number: u16, at: usize, changed: &mut [u8]) -> usize
    requires there { at < window_count (bytes_of plan.now) }
    requires fits { length (changed_file (bytes_of plan.now) (withdrawing number at)) ≤ length changed.old }
    ensures value { result ≡ length (changed_file (bytes_of plan.now) (withdrawing number at)) }
    ensures changed_after { changed.new ≡ overwritten changed.old (changed_file (bytes_of plan.now) (withdrawing number at)) }
{
    let file = plan.bytes();
    let windows = plan.count();
    plan::write_header(number, windows - 1, plan.minimum(), changed);
    let place = plan::window_place(at as u16);
    copy_part(file, HEADER_LENGTH, place, changed, HEADER_LENGTH);
    copy_part(file, place + WINDOW_LENGTH, file.len(), changed, place);
    file.len() - WINDOW_LENGTH
}

// The changed plan. How many bytes it has is returned.
#[tactic(auto, using(crate::proofs::Applied::editing))]
pub(crate) fn write_changed(plan: &Plan, change: Change, changed: &mut [u8]) -> usize
    requires accepted_change { AcceptedChange (bytes_of plan.now) change }
    requires change_in_bounds { length (changed_file (bytes_of plan.now) change) ≤ length changed.old }
    ensures value { result ≡ length (changed_file (bytes_of plan.now) change) }
    ensures changed_after { changed.new ≡ overwritten changed.old (changed_file (bytes_of plan.now) change) }
{
    match change.edit {
        Edit::Add(window) => write_with(plan, change.plan, window, changed),
        Edit::Withdraw(at) => write_without(plan, change.plan, at, changed),
    }
}
