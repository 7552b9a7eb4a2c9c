// The parent table of an even plan, from which its short tags are made.
ghost use Rattle.std.specs.Prelude.{◌≡◌, [], ◌∷◌, min, length};
ghost use Rattle.refusals.specs.Question.{about, asked_of};
ghost use Rattle.plan.specs.Even.{even_question, even_questions};
ghost use Rattle.plan.specs.Plan.{bytes_of};
ghost use Rattle.minutes.specs.Tables.{parent_of};
ghost use Rattle.minutes.specs.SingleTable.{after_table};
ghost use Rattle.minutes.specs.EvenTable.{even_table_answer_of};

use crate::parents::find_parents;
use plan::{Plan, Window};
use refusals::{Question, Refusal};

// Question 13 of the window at a position, where the one ahead of it ends at `before`.
#[tactic(auto, unfolding(plan::specs::Even::even_question))]
fn ask_end(window: Window, position: u16, before: u64) -> Result<(), Refusal>
    ensures { result ≡ asked_of (about position (even_question before window ∷ [])) }
{
    let asked = refusals::ask(Question::EndsInOrder, before <= window.end());
    asked.map_err(|refusal| refusal.about(position))
}

// Question 13 of every window, window after window.
#[tactic(auto, using(refusals::proofs::Questions::window_after_window), unfolding(plan::specs::Even::even_questions, plan::specs::Even::end_before))]
fn ask_even(plan: &Plan) -> Result<(), Refusal>
    ensures { result ≡ asked_of (even_questions (bytes_of plan.now)) }
{
    let mut before = 0;
    for position in 0..plan.len() {
        let window = plan.window(position).unwrap();
        ask_end(window, position as u16, before)?;
        before = window.end();
    }
    Ok(())
}

/// The parents, where this table and what the caller has elsewhere, with room for so many windows, hold the plan's: question 13 after the
/// plan's, and then 8. Answers with the number of windows.
#[tactic(auto, using(refusals::proofs::Questions::in_turn), unfolding(crate::specs::EvenTable::even_table_questions, crate::specs::EvenTable::even_table_answer_of, crate::specs::SingleTable::after_table))]
pub fn even_parents(file: &[u8], room: usize, parents: &mut [u16]) -> Result<u16, Refusal>
    ensures value { result ≡ even_table_answer_of file.now (min room (length parents.old)) }
    ensures parents_after { parents.new ≡ after_table result (parent_of file.now) parents.old }
{
    let plan = Plan::new(file)?;
    ask_even(&plan)?;
    refusals::ask(Question::HasRoom, plan.len() <= room.min(parents.len()))?;
    find_parents(&plan, parents);
    Ok(plan.count())
}
