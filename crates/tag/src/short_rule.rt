// The rule on two short tags of one component.
ghost use Rattle.std.specs.Prelude.{◌≡◌, ◌≤◌};
ghost use Rattle.interval_graph.specs.Numbers as rule;

use crate::rule::Ruled;
use tag_bytes::ShortTag;

impl Ruled for ShortTag {
    ghost between = { rule.short_between };

    #[tactic(auto, unfolding(interval_graph::specs::Numbers::comes_first, interval_graph::specs::Numbers::short_between))]
    fn handovers(self, other: Self) -> u64 {
        let (u, v) = if (self.depth, self.rank) < (other.depth, other.rank) {
            (self, other)
        } else {
            (other, self)
        };
        u64::from(v.depth - u.depth) + u64::from(u.rank < v.rank)
    }

    ghost use Rattle.std.proofs.Common.{arith};
    ghost use Rattle.std.proofs.lemmas.Grind.{common_steps};

    ghost few_handovers = { λ u v. unfold rule.short_between in Prim.grind (arith, common_steps) };
}
