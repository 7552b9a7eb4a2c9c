// The long tag: five numbers.
ghost use Rattle.std.specs.Prelude.{◌≡◌};
ghost use Rattle.tag_bytes.specs.Fields.{numbers, within_limit, tag_bytes};

use crate::label::Label;
use crate::short_tag::ShortTag;

/// The five numbers of a window, which a reader answers from.
#[derive(Clone, Copy, Debug, PartialEq, Eq)]
pub struct Tag {
    pub plan: u16,
    pub component: u16,
    pub depth: u16,
    pub rank: u16,
    /// The rank of the window's last.
    pub last: u16,
}

impl Tag {
    // Question 10. The plan number may be any number of two bytes.
    pub(crate) fn is_within_limit(self) -> bool
        ensures { result ≡ within_limit (numbers self) }
    {
        // Four `<=` joined by `&&` cost more: each field would be loaded byte by byte.
        [self.component, self.depth, self.rank, self.last]
            .iter()
            .all(|number| *number <= Tag::FIELD_LIMIT)
    }

    // Its numbers, lowest byte first.
    #[tactic(auto, unfolding(crate::specs::Fields::tag_bytes, crate::specs::Fields::short_bytes, wire::specs::LittleEndian::bytes16))]
    pub(crate) fn to_bytes(self) -> [u8; 10]
        ensures { result ≡ tag_bytes (numbers self) }
    {
        let [plan_low, plan_high] = self.plan.to_le_bytes();
        let [component_low, component_high] = self.component.to_le_bytes();
        let [depth_low, depth_high] = self.depth.to_le_bytes();
        let [rank_low, rank_high] = self.rank.to_le_bytes();
        let [last_low, last_high] = self.last.to_le_bytes();
        [
            plan_low,
            plan_high,
            component_low,
            component_high,
            depth_low,
            depth_high,
            rank_low,
            rank_high,
            last_low,
            last_high,
        ]
    }
}

impl Label for Tag {
    ghost use Rattle.tag_bytes.specs.Fields.{tag_length, field_limit, tag_of, numbers, tag_bytes};

    const LENGTH: usize = 10;

    const FIELD_LIMIT: u16 = 2047;

    ghost LENGTH = { tag_length };

    ghost FIELD_LIMIT = { field_limit };

    ghost numbers = { numbers };

    ghost label_of = { tag_of };

    ghost bytes_of = { tag_bytes };

    #[tactic(auto, unfolding(crate::specs::Fields::field))]
    fn of_bytes(bytes: &[u8]) -> Self {
        ShortTag::of_bytes(bytes).with_last(wire::read_u16(bytes, 8))
    }

    fn to_tag(self) -> Tag {
        self
    }

    ghost use Rattle.std.proofs.Common.{arith};
    ghost use Rattle.std.specs.Prelude.{refl};
    ghost use Rattle.wire.specs.LittleEndian.{bytes16};
    ghost use Rattle.tag_bytes.specs.Fields.{short_bytes};

    ghost some_bytes = { omega arith };

    ghost few_bytes = { omega arith };

    ghost has_its_length = { λ n. unfold tag_bytes in unfold short_bytes in unfold bytes16 in refl };

    ghost begins_the_tag = { λ n. unfold tag_bytes in unfold short_bytes in unfold bytes16 in refl };
}
