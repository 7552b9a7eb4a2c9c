// Windows of a plan that do not overlap.
ghost use Rattle.std.specs.Prelude.{◌≡◌, suc, ◌≤◌, ◌<◌};
ghost use Rattle.plan.specs.File.{window_count};
ghost use Rattle.minutes.specs.Rooted.{plan_of};
ghost use Rattle.minutes.specs.Tables.{last_of};
ghost use Rattle.reaching.specs.Passes.{FirstApart};

use minutes::Rooted;

// The first window from a position on, before another, that does not overlap that other; the other itself where all do. (No Option: `FirstApart`
// and the law `seeking_found` say it so.)
pub(crate) fn first_apart(tree: &Rooted, from: usize, top: usize) -> usize
    requires from_le_top { from ≤ top }
    requires top_bound { top < window_count (plan_of tree.now) }
    ensures { FirstApart (plan_of tree.now) from top result }
{
    let plan = tree.plan();
    let minimum = plan.minimum();
    let offset = plan.window(top).unwrap().offset;
    for at in from..top {
        if !overlap::reaches(minimum, plan.window(at).unwrap().end(), offset) {
            return at;
        }
    }
    top
}

// The window behind a window's last, which is not behind the position `to`. The window's offset and length are added once, before the later
// ones are looked at.
#[tactic(auto, using(plan::proofs::Acceptance::few_windows))]
pub(crate) fn behind_last(tree: &Rooted, at: usize, to: usize) -> usize
    requires to_bound { to < window_count (plan_of tree.now) }
    requires last_before_to { last_of (plan_of tree.now) at < to }
    ensures { result ≡ suc (last_of (plan_of tree.now) at) }
{
    let plan = tree.plan();
    let minimum = plan.minimum();
    let end = plan.window(at).unwrap().end();
    for next in at + 1..to {
        if !overlap::reaches(minimum, end, plan.window(next).unwrap().offset) {
            return next;
        }
    }
    to
}
