// The chain between two windows. It is counted first, so that nothing is written where it does not fit.
ghost use Rattle.std.specs.Prelude.{◌≡◌, ◌≤◌, ◌<◌, length};
ghost use Rattle.plan.specs.File.{window_count};
ghost use Rattle.minutes.specs.Rooted.{plan_of};
ghost use Rattle.path.specs.Chain.{chain_between, chain_answer_of, chain_in_of, after_chain};
ghost use Rattle.path.specs.Steps.{chain_rest};

use crate::walk::{steps_before, write_walk};
use minutes::Rooted;
use plan::{GREATEST_COUNT, Plan};
use refusals::{Question, Refusal};

// The chain between two windows, the earlier and the later, which may be one.
#[tactic(auto, using(crate::proofs::Walking::between, plan::proofs::Acceptance::few_windows), unfolding(crate::specs::Chain::chain_found, crate::specs::Chain::after_chain))]
fn write_between(
    tree: &Rooted,
    earlier: usize,
    later: usize,
    out: &mut [u16],
) -> Result<Option<u16>, Refusal>
    requires earlier_le_later { earlier ≤ later }
    requires later_bound { later < window_count (plan_of tree.now) }
    ensures value { result ≡ chain_rest (chain_between (plan_of tree.now) earlier later) (length out.old) }
    ensures out_after { out.new ≡ after_chain result (chain_between (plan_of tree.now) earlier later) out.old }
{
    let Some(steps) = steps_before(tree, earlier, later) else {
        return Ok(None);
    };
    refusals::ask(Question::HasRoom, steps < out.len())?;
    write_walk(tree, earlier, later, steps, out);
    Ok(Some((steps + 1) as u16))
}

/// The chain between two windows of a plan whose parents are known: how many entries were written, the two windows among them, or none
/// where no chain joins the two.
#[tactic(auto, using(refusals::proofs::Questions::in_turn, crate::proofs::Walking::between_ordered), unfolding(crate::specs::Chain::chain_in_of, crate::specs::Chain::after_chain))]
pub fn chain_in(
    tree: &Rooted,
    first: usize,
    second: usize,
    out: &mut [u16],
) -> Result<Option<u16>, Refusal>
    ensures value { result ≡ chain_in_of (plan_of tree.now) first second (length out.old) }
    ensures out_after { out.new ≡ after_chain result (chain_between (plan_of tree.now) first second) out.old }
{
    refusals::ask_positions(first, second, tree.len())?;
    write_between(tree, first.min(second), first.max(second), out)
}

/// The shortest chain between two windows that has the earliest window at each step, from the later to the earlier.
#[tactic(auto, using(refusals::proofs::Questions::in_turn), unfolding(crate::specs::Chain::chain_in_of, crate::specs::Chain::chain_questions, crate::specs::Chain::chain_answer_of, crate::specs::Chain::after_chain))]
pub fn chain(
    file: &[u8],
    first: usize,
    second: usize,
    out: &mut [u16],
) -> Result<Option<u16>, Refusal>
    ensures value { result ≡ chain_answer_of file.now first second (length out.old) }
    ensures out_after { out.new ≡ after_chain result (chain_between file.now first second) out.old }
{
    let plan = Plan::new(file)?;
    let mut parents = [0; GREATEST_COUNT];
    chain_in(&Rooted::new(plan, &mut parents), first, second, out)
}
