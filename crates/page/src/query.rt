// A page whose records hold the pair call's own answer.
ghost use Rattle.std.specs.Prelude.{◌≡◌};
ghost use Rattle.page.specs.Page.{page_answer_of, after_page};

use crate::records::{Record, fill};
use refusals::Refusal;
use tag::{PairAnswer, Tag};

/// A record with the answer itself. (C's own record is another type, laid out for C, with a number in place of the answer.)
#[derive(Clone, Copy, Debug, PartialEq, Eq)]
pub struct Query {
    pub first: usize,
    pub second: usize,
    pub answer: PairAnswer,
}

impl Record for Query {
    ghost use Rattle.page.specs.Page.{filled};
    ghost use Rattle.page.specs.Passes.{as_one_pair};

    ghost as_one_pair = { as_one_pair };

    ghost filled = { filled };

    // A pair from positions asks question 9 once more: it must be right for every tag file. The compiler asks it once, before the loop.
    #[tactic(auto, using(crate::proofs::Filled::pair_filled), unfolding(crate::specs::Passes::as_one_pair, crate::specs::Page::filled, crate::specs::Page::with_answer))]
    fn answered(self, tags: &[u8]) -> Self {
        let answer = tag::pair_at::<Tag>(tags, self.first, self.second);
        Query { answer, ..self }
    }
}

/// Fills every record of a page.
#[tactic(auto, unfolding(crate::specs::Page::after_page))]
pub fn page(tags: &[u8], queries: &mut [Query]) -> Result<(), Refusal>
    ensures value { result ≡ page_answer_of tags.now }
    ensures queries_after { queries.new ≡ after_page (page_answer_of tags.now) tags.now queries.old }
{
    fill(tags, queries)
}
