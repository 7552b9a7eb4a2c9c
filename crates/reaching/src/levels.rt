// A component of a plan with its parents: its levels stand one behind the other, since a later window is at least as deep. (Each function
// of this crate asks of a position that it is a window's; they hand on different ones, so a type for such a position would save no line.)
ghost use Rattle.std.specs.Prelude.{◌≡◌, ◌≤◌, ◌<◌};
ghost use Rattle.interval_graph.specs.Tree.{root};
ghost use Rattle.plan.specs.File.{window_count};
ghost use Rattle.overlap.specs.Overlap.{overlaps};
ghost use Rattle.minutes.specs.Rooted.{plan_of};
ghost use Rattle.reaching.specs.Passes.{top_of, Spine, Deepest};

use minutes::Rooted;

// How many levels below a window the component's last one stands, the first window of that level under it, and the last window.
#[derive(Clone, Copy, Debug, PartialEq, Eq)]
pub(crate) struct Levels {
    pub(crate) steps: usize,
    pub(crate) first: usize,
    pub(crate) last: usize,
}

// The ancestor of a window whose parent is a root; a root itself for a root.
pub(crate) fn top_of(tree: &Rooted, from: usize) -> usize
    requires from_bound { from < window_count (plan_of tree.now) }
    ensures top { result ≡ top_of (overlaps (plan_of tree.now)) from }
    ensures up { result ≤ from }
{
    // By the table, and a `while`: no index is counted, and `Rooted::parent` would ask at each step whether there is such a window.
    let parents = tree.parents();
    let mut at = from;
    let mut up = usize::from(parents[from]);
    while usize::from(parents[up]) != up {
        at = up;
        up = usize::from(parents[up]);
    }
    at
}

// The root of a window's component.
#[tactic(auto, using(crate::proofs::Reached::root_read, plan::proofs::Acceptance::few_windows))]
pub(crate) fn root_of(tree: &Rooted, at: usize) -> usize
    requires at_bound { at < window_count (plan_of tree.now) }
    ensures { result ≡ root (overlaps (plan_of tree.now)) at }
{
    usize::from(tree.parents()[top_of(tree, at)])
}

// A level begins where a parent stands on the one before it, so one pass forward finds the last of them. It may begin at a root, and at any
// window that the ancestor of the component's last window on its level does not stand before.
#[tactic(auto, using(plan::proofs::Acceptance::few_windows))]
pub(crate) fn levels_from(tree: &Rooted, from: usize) -> Levels
    requires from_bound { from < window_count (plan_of tree.now) }
    requires spine { Spine (window_count (plan_of tree.now)) (overlaps (plan_of tree.now)) from }
    ensures { Deepest (window_count (plan_of tree.now)) (overlaps (plan_of tree.now)) from result.steps result.first result.last }
{
    let mut steps = 0;
    let mut first = from;
    let mut last = from;
    for next in from + 1..tree.len() {
        let Some(parent) = tree.parent(next) else {
            return Levels { steps, first, last };
        };
        let begins = first <= parent;
        if begins {
            first = next;
            steps += 1;
        }
        last = next;
    }
    Levels { steps, first, last }
}
