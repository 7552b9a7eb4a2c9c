// The margin of two windows: how many minutes they share, or lie apart.
ghost use Rattle.std.specs.Prelude.{◌≡◌, Ok, Err};
ghost use Rattle.refusals.specs.Question.{first_no, position_questions};
ghost use Rattle.plan.specs.File.{window_count};
ghost use Rattle.plan.specs.Plan.{bytes_of};
ghost use Rattle.overlap.specs.Margin.{margin_of, margin_between, margin_answer_of};

use plan::{Plan, Window};
use refusals::Refusal;

/// The smaller end less the greater offset. No end of two fields of 32 bits and no offset is too great for 64 bits with a sign, and so no
/// difference of them is, on either side of 0.
#[tactic(auto, unfolding(crate::specs::Margin::margin_of, plan::specs::File::end_of))]
pub fn window_margin(first: Window, second: Window) -> i64
    ensures { result ≡ margin_of first second }
{
    let end = first.end().min(second.end());
    let offset = first.offset.max(second.offset);
    end as i64 - i64::from(offset)
}

// The margin of the windows at two positions, which may be past the windows.
#[tactic(auto, using(refusals::proofs::Questions::in_turn), unfolding(crate::specs::Margin::margin_between))]
fn margin_among(plan: &Plan, first: usize, second: usize) -> Result<i64, Refusal>
    ensures { result ≡ first_no (position_questions first second (window_count (bytes_of plan.now))) Err (Ok (margin_between (bytes_of plan.now) first second)) }
{
    refusals::ask_positions(first, second, plan.len())?;
    let one = plan.window(first).unwrap();
    let other = plan.window(second).unwrap();
    Ok(window_margin(one, other))
}

/// The margin of two windows of a plan, which may be one.
#[tactic(auto, using(refusals::proofs::Questions::in_turn), unfolding(crate::specs::Margin::margin_answer_of, crate::specs::Margin::margin_questions))]
pub fn margin(file: &[u8], first: usize, second: usize) -> Result<i64, Refusal>
    ensures { result ≡ margin_answer_of file.now first second }
{
    let plan = Plan::new(file)?;
    margin_among(&plan, first, second)
}
