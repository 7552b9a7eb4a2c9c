// The rule on two tags of one component, and that of long tags.
ghost use Rattle.std.specs.Prelude.{◌≡◌, ℕ, ◌+◌, ◌≤◌, cond};
ghost use Rattle.interval_graph.specs.Numbers.{Numbers, comes_first};
ghost use Rattle.interval_graph.specs.Numbers as rule;
ghost use Rattle.tag_bytes.specs.Fields.{numbers};
ghost use Rattle.tag.specs.Order.{order_of, in_order};

use tag_bytes::{Label, Tag};

pub trait Ruled: Label {
    // The handovers between two windows of a component, of which the first comes first.
    ghost between: { Numbers → Numbers → ℕ };

    /// The same of two windows of a component, whichever comes first.
    fn handovers(self, other: Self) -> u64
        ensures { result ≡ cond (comes_first (Self.numbers self) (Self.numbers other)) (between (Self.numbers self) (Self.numbers other)) (between (Self.numbers other) (Self.numbers self)) };

    // Few, where depths are small.
    ghost few_handovers: { (u v : Numbers) → between u v ≤ v.depth + 2 };
}

// A tag's depth, rank and rank of the last as one number. Of two tags of one component, that with the smaller number comes first.
fn order(tag: Tag) -> u64
    ensures { result ≡ order_of (numbers tag) }
{
    4294967296 * u64::from(tag.depth) + 65536 * u64::from(tag.rank) + u64::from(tag.last)
}

// The count from the numbers of u and v. Which of two tags is u, and how their ranks lie, no processor can foresee, so nothing here goes by a
// branch: of the three comparisons the rule counts how many hold. (A record of a page of random pairs took 13 ns by branches, and takes 6.)
#[tactic(auto, unfolding(interval_graph::specs::Numbers::between))]
fn between(u: u64, v: u64) -> u64
    requires { u ≤ v }
    ensures { result ≡ rule.between (in_order u) (in_order v) }
{
    let levels = v / 4294967296 - u / 4294967296;
    let rank = u / 65536 % 65536;
    let last = u % 65536;
    let other = v / 65536 % 65536;
    let rising = u64::from(rank < other);
    let reached = u64::from(other <= last);
    let around = u64::from(last < rank);
    levels + 1 + rising - (rising + reached + around) / 2
}

impl Ruled for Tag {
    ghost between = { rule.between };

    fn handovers(self, other: Self) -> u64 {
        let (x, y) = (order(self), order(other));
        between(x.min(y), x.max(y))
    }

    ghost use Rattle.std.proofs.Common.{arith};
    ghost use Rattle.std.proofs.lemmas.Grind.{common_steps};

    ghost few_handovers = { λ u v. unfold rule.between in Prim.grind (arith, common_steps) };
}
