// A page of pairs.
ghost use Rattle.std.specs.Prelude.{◌≡◌};
ghost use Rattle.page.specs.Page.{page_answer_of};
ghost use Rattle.packing.specs.Packing.{packed_page};
ghost use Rattle.poddreshi_reader.specs.Pages.{after_packed_page};

use crate::tags::poddreshi_pair_at;
use packing::{Done, Packed};
use page::Record;

/// A record of a page as C has it: two positions, and the place for their answer as one number. What stands there before is not read.
#[repr(C)]
#[derive(Clone, Copy, Debug, PartialEq, Eq)]
pub struct PackedQuery {
    pub first: usize,
    pub second: usize,
    pub answer: u64,
}

impl Record for PackedQuery {
    ghost use Rattle.poddreshi_reader.specs.Pages.{packed_filled, as_one_packed_pair};

    ghost as_one_pair = { as_one_packed_pair };

    ghost filled = { packed_filled };

    #[tactic(auto, using(page::proofs::Filled::pair_filled), unfolding(crate::specs::Pages::as_one_packed_pair, crate::specs::Pages::packed_filled, crate::specs::Pages::packed_with))]
    fn answered(self, tags: &[u8]) -> Self {
        let answer = poddreshi_pair_at(tags, self.first, self.second);
        PackedQuery { answer, ..self }
    }
}

/// Fills every record of a page.
#[tactic(auto, unfolding(crate::specs::Pages::after_packed_page))]
pub fn poddreshi_page(tags: &[u8], queries: &mut [PackedQuery]) -> u64
    ensures value { result ≡ packed_page (page_answer_of tags.now) }
    ensures queries_after { queries.new ≡ after_packed_page (page_answer_of tags.now) tags.now queries.old }
{
    page::fill(tags, queries).map(|()| Done::Filled).pack()
}
