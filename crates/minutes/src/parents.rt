// The parent table, by two fingers: the parent moves only to the right as the window does, so all of it is linear.
ghost use Rattle.std.specs.Prelude.{◌≡◌, ◌≤◌, ◌<◌, length};
ghost use Rattle.sequences.specs.Table.{table, overwritten};
ghost use Rattle.plan.specs.File.{window_count};
ghost use Rattle.plan.specs.Plan.{bytes_of};
ghost use Rattle.minutes.specs.Tables.{parent_of, bound_at};
ghost use Rattle.minutes.specs.SingleTable.{table_answer_of, after_table};
ghost use Rattle.minutes.specs.Passes.{FirstPast};

use crate::windows::bound_at;
use plan::Plan;
use refusals::{Question, Refusal};

// A position and its bound, which is formed when the finger comes to it, and not again for each window that it waits for.
#[derive(Clone, Copy, Debug, PartialEq, Eq)]
struct Finger {
    at: usize,
    bound: u32,
}

// The first position from the finger's on whose bound lies past the offset, or `to` where there is none before it. A `while`: a `for`
// with a `return` would form the bound of the finger's own position again, for each window that it waits for.
fn first_past(plan: &Plan, offset: u32, finger: Finger, to: usize) -> Finger
    requires bound_value { finger.bound ≡ bound_at (bytes_of plan.now) finger.at }
    requires at_le_to { finger.at ≤ to }
    requires to_bound { to < window_count (bytes_of plan.now) }
    ensures first_past { FirstPast (bound_at (bytes_of plan.now)) offset finger.at to result.at }
    ensures bound_after { result.bound ≡ bound_at (bytes_of plan.now) result.at }
{
    let mut at = finger.at;
    let mut bound = finger.bound;
    while at < to && bound <= offset {
        at += 1;
        bound = bound_at(plan, at);
    }
    Finger { at, bound }
}

pub(crate) fn find_parents(plan: &Plan, parents: &mut [u16])
    requires { window_count (bytes_of plan.now) ≤ length parents.old }
    ensures { parents.new ≡ overwritten parents.old (table (parent_of (bytes_of plan.now)) (window_count (bytes_of plan.now))) }
{
    if plan.len() == 0 {
        return;
    }
    let bound = bound_at(plan, 0);
    let mut finger = Finger { at: 0, bound };
    for position in 0..plan.len() {
        let offset = plan.window(position).unwrap().offset;
        finger = first_past(plan, offset, finger, position);
        parents[position] = finger.at as u16;
    }
}

/// The parent table by itself: question 8 after the plan's. Answers with the number of windows.
#[tactic(auto, using(refusals::proofs::Questions::in_turn), unfolding(crate::specs::SingleTable::table_questions, crate::specs::SingleTable::table_answer_of, crate::specs::SingleTable::after_table))]
pub fn parent_table(file: &[u8], parents: &mut [u16]) -> Result<u16, Refusal>
    ensures value { result ≡ table_answer_of file.now (length parents.old) }
    ensures parents_after { parents.new ≡ after_table result (parent_of file.now) parents.old }
{
    let plan = Plan::new(file)?;
    refusals::ask(Question::HasRoom, plan.len() <= parents.len())?;
    find_parents(&plan, parents);
    Ok(plan.count())
}
