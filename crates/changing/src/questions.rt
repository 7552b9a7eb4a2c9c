// What is asked of a plan and a change, before anything is written.
ghost use Rattle.std.specs.Prelude.{◌≡◌, [], ◌∷◌, ◌++◌};
ghost use Rattle.refusals.specs.Question.{question, asked_of};
ghost use Rattle.plan.specs.File.{window_count, minimum_handover};
ghost use Rattle.plan.specs.Plan.{bytes_of};
ghost use Rattle.changing.specs.Questions.{has_place, edit_questions, record_questions, both_fit};
ghost use Rattle.changing.specs.Steps.{count_fits};

use crate::places::count_after;
use crate::records::{Change, Edit};
use plan::{GREATEST_COUNT, Plan};
use refusals::{Question, Refusal};
use tag_bytes::{Label, Tag};

// Question 15.
#[tactic(auto, unfolding(crate::specs::Questions::has_place))]
fn has_place(edit: Edit, windows: usize) -> bool
    ensures { result ≡ has_place edit windows }
{
    match edit {
        Edit::Add(_) => windows < GREATEST_COUNT,
        Edit::Withdraw(_) => true,
    }
}

// The added window's own 4 and 5, or 7 of the position to withdraw.
#[tactic(auto, unfolding(crate::specs::Questions::edit_questions))]
fn ask_edit(plan: &Plan, edit: Edit) -> Result<(), Refusal>
    ensures { result ≡ asked_of (edit_questions edit (minimum_handover (bytes_of plan.now)) (window_count (bytes_of plan.now))) }
{
    match edit {
        Edit::Add(window) => window.ask(plan.minimum()),
        Edit::Withdraw(at) => refusals::ask(Question::IsThere, at < plan.len()),
    }
}

// Question 8, of a plan with so many windows.
#[tactic(auto, unfolding(crate::specs::Steps::count_fits))]
fn has_room(windows: u16, changed: usize, tags: usize) -> bool
    ensures { result ≡ count_fits windows changed tags }
{
    plan::window_place(windows) <= changed && Tag::LENGTH * usize::from(windows) <= tags
}

// Question 15, 16, those of what is to be done, and 8.
#[tactic(auto, using(refusals::proofs::Questions::in_turn, crate::proofs::Asked::fits_both), unfolding(crate::specs::Questions::record_questions))]
pub(crate) fn ask_change(
    plan: &Plan,
    change: Change,
    changed: usize,
    tags: usize,
) -> Result<(), Refusal>
    ensures { result ≡ asked_of (record_questions (bytes_of plan.now) change ++ (question 8 (both_fit (bytes_of plan.now) change changed tags) ∷ [])) }
{
    let edit = change.edit;
    refusals::ask(Question::HasPlace, has_place(edit, plan.len()))?;
    refusals::ask(Question::HasNewNumber, change.plan != plan.number())?;
    ask_edit(plan, edit)?;
    let windows = count_after(edit, plan.count());
    refusals::ask(Question::HasRoom, has_room(windows, changed, tags))
}
