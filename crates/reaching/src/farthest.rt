// Reach from a plan: the parents, one pass over the component's levels, and one over the windows that its root overlaps, each beside
// one that stays; and where one of them does not overlap that one, a pass over the levels behind its last.
ghost use Rattle.std.specs.Prelude.{◌≡◌, ◌<◌};
ghost use Rattle.plan.specs.File.{window_count};
ghost use Rattle.minutes.specs.Rooted.{plan_of};
ghost use Rattle.reaching.specs.Passes.{ComponentFound};
ghost use Rattle.reaching.specs.Reach.{reach_of, reach_answer_of};

use crate::answers::Reach;
use crate::levels::{Levels, levels_from, root_of, top_of};
use crate::overlaps::{behind_last, first_apart};
use minutes::Rooted;
use plan::{GREATEST_COUNT, Plan};
use refusals::{Question, Refusal};

// A component from its root, and the ancestor of its last window that is on the level below the root.
#[derive(Clone, Copy, Debug, PartialEq, Eq)]
struct Component {
    root: usize,
    levels: Levels,
    top: usize,
}

#[tactic(auto, using(crate::proofs::Reached::from_root))]
fn component_of(tree: &Rooted, at: usize) -> Component
    requires at_bound { at < window_count (plan_of tree.now) }
    ensures { ComponentFound (plan_of tree.now) at result.root result.levels.steps result.levels.first result.levels.last result.top }
{
    let root = root_of(tree, at);
    let levels = levels_from(tree, root);
    let top = top_of(tree, levels.last);
    Component { root, levels, top }
}

// The reach of the component of a window. No two windows are more handovers apart than the depth of the last and one more, and so many
// only where the earlier has its last before the top of this one.
#[tactic(auto, using(plan::proofs::Acceptance::few_windows))]
fn farthest(tree: &Rooted, at: usize) -> Reach
    requires at_bound { at < window_count (plan_of tree.now) }
    ensures { result ≡ reach_of (plan_of tree.now) at }
{
    let whole = component_of(tree, at);
    let smaller = first_apart(tree, whole.root, whole.top);
    if smaller == whole.top {
        return Reach {
            handovers: whole.levels.steps as u16,
            smaller: whole.root as u16,
            larger: whole.levels.first as u16,
        };
    }
    let under = levels_from(tree, behind_last(tree, smaller, whole.top));
    Reach {
        handovers: (whole.levels.steps + 1) as u16,
        smaller: smaller as u16,
        larger: under.first as u16,
    }
}

/// The greatest number of handovers between two windows of a position's component, and the first pair that has it.
#[tactic(auto, using(refusals::proofs::Questions::in_turn), unfolding(crate::specs::Reach::reach_questions, crate::specs::Reach::reach_answer_of))]
pub fn reach(file: &[u8], at: usize) -> Result<Reach, Refusal>
    ensures { result ≡ reach_answer_of file.now at }
{
    let plan = Plan::new(file)?;
    refusals::ask(Question::IsThere, at < plan.len())?;
    let mut parents = [0; GREATEST_COUNT];
    Ok(farthest(&Rooted::new(plan, &mut parents), at))
}
