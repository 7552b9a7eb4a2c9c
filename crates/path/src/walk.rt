// The walk up from the later window, from parent to parent, until a window that the earlier one overlaps, or one that does
// not stand behind it. (The two go on as positions, with a `requires` for each: eight lines in four functions. A struct of the plan,
// its parents and the two, with two ghost fields and a function that asks for the same and makes it, has as many.)
ghost use Rattle.std.specs.Prelude.{◌≡◌, ◌<◌, length};
ghost use Rattle.sequences.specs.Table.{overwritten};
ghost use Rattle.plan.specs.File.{window_count};
ghost use Rattle.minutes.specs.Rooted.{plan_of};
ghost use Rattle.path.specs.Steps.{steps_up, steps_found, walked};

use minutes::Rooted;

// The steps up from the later window to one that is not past the earlier one's last; none where the root is past it.
#[tactic(auto, using(crate::proofs::Climbing::climbs_out, crate::proofs::Climbing::climbs_there))]
fn climb_steps(tree: &Rooted, earlier: usize, later: usize) -> Option<usize>
    requires earlier_bound { earlier < window_count (plan_of tree.now) }
    requires later_bound { later < window_count (plan_of tree.now) }
    ensures { result ≡ steps_up (plan_of tree.now) earlier later }
{
    let plan = tree.plan();
    let minimum = plan.minimum();
    let end = plan.window(earlier).unwrap().end();
    let mut at = later;
    let mut steps = 0;
    // A window that shares less than the minimum with the earlier one stands behind its last, and no other does. (A `while`: by
    // `iter::successors` and `position` the step to the parent and the test would stand in two closures, and of each it would have to be shown
    // that its position is a window's.)
    while !overlap::reaches(minimum, end, plan.window(at).unwrap().offset) {
        at = tree.parent(at)?;
        steps += 1;
    }
    Some(steps)
}

// How many windows stand before the earlier one on the chain, where there is one.
#[tactic(auto, using(plan::proofs::Acceptance::few_windows))]
pub(crate) fn steps_before(tree: &Rooted, earlier: usize, later: usize) -> Option<usize>
    requires earlier_bound { earlier < window_count (plan_of tree.now) }
    requires later_bound { later < window_count (plan_of tree.now) }
    ensures { result ≡ steps_found (plan_of tree.now) earlier later }
{
    if earlier == later {
        return Some(0);
    }
    Some(climb_steps(tree, earlier, later)? + 1)
}

// Writes the later window, its parent and so on, as many as `steps`, and then the earlier window.
#[tactic(auto, using(crate::proofs::Walking::walking, plan::proofs::Acceptance::few_windows))]
pub(crate) fn write_walk(tree: &Rooted, earlier: usize, later: usize, steps: usize, out: &mut [u16])
    requires earlier_bound { earlier < window_count (plan_of tree.now) }
    requires later_bound { later < window_count (plan_of tree.now) }
    requires steps_in_bounds { steps < length out.old }
    ensures { out.new ≡ overwritten out.old (walked (plan_of tree.now) earlier later steps) }
{
    let parents = tree.parents();
    let mut at = later;
    for entry in &mut out[..steps] {
        *entry = at as u16;
        at = usize::from(parents[at]);
    }
    out[steps] = earlier as u16;
}
