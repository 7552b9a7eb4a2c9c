// Whether a file is that of an accepted plan.
ghost use Rattle.std.specs.Prelude.{◌≡◌};
ghost use Rattle.plan.specs.Validation.{validate_answer_of};

use crate::plan_file::Plan;
use refusals::Refusal;

/// What is said of a file that is accepted: the plan number, and how many windows there are.
#[derive(Clone, Copy, Debug, PartialEq, Eq)]
pub struct Accepted {
    pub plan: u16,
    pub windows: u16,
}

/// Whether a file is that of an accepted plan: questions 1, 2, 14 and 3, and then 4, 5 and 6 of each window.
#[tactic(auto, using(refusals::proofs::Questions::in_turn), unfolding(crate::specs::Validation::validate_answer_of))]
pub fn validate(file: &[u8]) -> Result<Accepted, Refusal>
    ensures { result ≡ validate_answer_of file.now }
{
    let plan = Plan::new(file)?;
    Ok(Accepted {
        plan: plan.number(),
        windows: plan.count(),
    })
}
