// The short tag of even plans: four numbers.
ghost use Rattle.std.specs.Prelude.{◌≡◌};
ghost use Rattle.tag_bytes.specs.Fields.{with_last};

use crate::label::Label;
use crate::tag::Tag;

/// The four numbers of a window of an even plan, which a reader of short tags answers from.
#[derive(Clone, Copy, Debug, PartialEq, Eq)]
pub struct ShortTag {
    pub plan: u16,
    pub component: u16,
    pub depth: u16,
    pub rank: u16,
}

impl ShortTag {
    // The tag with these numbers and the rank of a last. (No `From`: it takes two values.)
    pub(crate) fn with_last(self, last: u16) -> Tag
        ensures { result ≡ with_last self last }
    {
        Tag {
            plan: self.plan,
            component: self.component,
            depth: self.depth,
            rank: self.rank,
            last,
        }
    }
}

impl Label for ShortTag {
    ghost use Rattle.tag_bytes.specs.Fields.{short_length, field_limit, short_tag_of, short_numbers, short_bytes};

    const LENGTH: usize = 8;

    const FIELD_LIMIT: u16 = Tag::FIELD_LIMIT;

    ghost LENGTH = { short_length };

    ghost FIELD_LIMIT = { field_limit };

    ghost numbers = { short_numbers };

    ghost label_of = { short_tag_of };

    ghost bytes_of = { short_bytes };

    #[tactic(auto, unfolding(crate::specs::Fields::field))]
    fn of_bytes(bytes: &[u8]) -> Self {
        ShortTag {
            plan: wire::read_u16(bytes, 0),
            component: wire::read_u16(bytes, 2),
            depth: wire::read_u16(bytes, 4),
            rank: wire::read_u16(bytes, 6),
        }
    }

    fn to_tag(self) -> Tag {
        self.with_last(0)
    }

    ghost use Rattle.std.proofs.Common.{arith};
    ghost use Rattle.std.specs.Prelude.{refl};
    ghost use Rattle.wire.specs.LittleEndian.{bytes16};
    ghost use Rattle.tag_bytes.specs.Fields.{tag_bytes};

    ghost some_bytes = { omega arith };

    ghost few_bytes = { omega arith };

    ghost has_its_length = { λ n. unfold short_bytes in unfold bytes16 in refl };

    ghost begins_the_tag = { λ n. unfold tag_bytes in unfold short_bytes in unfold bytes16 in refl };
}
