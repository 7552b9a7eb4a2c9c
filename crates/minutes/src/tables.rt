// Both tables at once, for a caller who has other tables of as many entries.
ghost use Rattle.std.specs.Prelude.{◌≡◌, min, length};
ghost use Rattle.minutes.specs.Tables.{parent_of, last_of};
ghost use Rattle.minutes.specs.SingleTable.{table_answer_of, after_table};

use crate::lasts::fill_lasts;
use crate::parents::find_parents;
use plan::Plan;
use refusals::{Question, Refusal};

/// Parents and lasts, where these two tables and the caller's others, of at least `room` entries, hold the windows: question 8 after the
/// plan's. Answers with the number of windows.
#[tactic(auto, using(refusals::proofs::Questions::in_turn), unfolding(crate::specs::SingleTable::table_questions, crate::specs::SingleTable::table_answer_of, crate::specs::SingleTable::after_table))]
pub fn fill_tables(
    file: &[u8],
    room: usize,
    parents: &mut [u16],
    lasts: &mut [u16],
) -> Result<u16, Refusal>
    ensures value { result ≡ table_answer_of file.now (min (min room (length parents.old)) (length lasts.old)) }
    ensures parents_after { parents.new ≡ after_table result (parent_of file.now) parents.old }
    ensures lasts_after { lasts.new ≡ after_table result (last_of file.now) lasts.old }
{
    let plan = Plan::new(file)?;
    let entries = room.min(parents.len()).min(lasts.len());
    refusals::ask(Question::HasRoom, plan.len() <= entries)?;
    find_parents(&plan, parents);
    fill_lasts(&plan, lasts);
    Ok(plan.count())
}
