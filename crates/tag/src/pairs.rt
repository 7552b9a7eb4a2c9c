// The answer from two tags alone, long or short: how many handovers lie between their windows.
ghost use Rattle.std.specs.Prelude.{◌≡◌, true, Ok, Err};
ghost use Rattle.interval_graph.specs.Numbers.{outcome_by};
ghost use Rattle.refusals.specs.Question.{first_no, asked_of};
ghost use Rattle.tag_bytes.specs.Fields.{within_limit};
ghost use Rattle.tag_bytes.specs.TagFile.{part_of};
ghost use Rattle.tag.specs.Pairing.{compare_questions, answer_of, pair_answer_by, places_in, pair_at_by};

use crate::rule::Ruled;
use refusals::{Question, Refusal};
use tag_bytes::{Label, lookup};

/// What two tags answer.
// An enum of its own, and no `Result<Option<u16>, Refusal>`: the project's rules name this form, with the `let .. else` on a reading in `pair`, and
// `Demand3` speaks of its variants.
#[derive(Clone, Copy, Debug, PartialEq, Eq)]
pub enum PairAnswer {
    Handovers(u16),
    NoChain,
    Refused(Refusal),
}

// Questions 11 and 12, then the rule. Tags of two components pass question 12, and so do those of two ranks, so it is asked of the others
// alone; in a component a rank belongs to one window, and a window is 0 handovers from itself.
#[tactic(auto, unfolding(crate::specs::Pairing::agreeing, interval_graph::specs::Numbers::equal, interval_graph::specs::Numbers::outcome_by))]
fn compare<L: Ruled>(a: L, b: L) -> Result<PairAnswer, Refusal>
    requires a_within_limit { within_limit (L.numbers a) ≡ true }
    requires b_within_limit { within_limit (L.numbers b) ≡ true }
    ensures { result ≡ first_no (compare_questions (L.numbers a) (L.numbers b)) Err (Ok (answer_of (outcome_by L.between (L.numbers a) (L.numbers b)))) }
{
    let (u, v) = (a.to_tag(), b.to_tag());
    refusals::ask(Question::HasOnePlan, u.plan == v.plan)?;
    if u.component != v.component {
        return Ok(PairAnswer::NoChain);
    }
    if u.rank == v.rank {
        refusals::ask(Question::Agrees, u == v)?;
        return Ok(PairAnswer::Handovers(0));
    }
    Ok(PairAnswer::Handovers(a.handovers(b) as u16))
}

/// The answer from the bytes of two tags. The second is not read where the first is refused.
#[tactic(auto, unfolding(crate::specs::Pairing::pair_answer_by))]
pub fn pair<L: Ruled>(first: &[u8], second: &[u8]) -> PairAnswer
    ensures { result ≡ pair_answer_by L.LENGTH L.between first.now second.now (L.numbers (L.label_of first.now)) (L.numbers (L.label_of second.now)) }
{
    let first_read = L::read(first);
    let Ok(a) = first_read else {
        return PairAnswer::Refused(L::refusal(first_read, 0));
    };
    let second_read = L::read(second);
    let Ok(b) = second_read else {
        return PairAnswer::Refused(L::refusal(second_read, 1));
    };
    match compare(a, b) {
        Ok(answer) => answer,
        Err(refusal) => PairAnswer::Refused(refusal.from(1)),
    }
}

/// Question 9 of a tag file, and 7 of two positions in it.
pub fn ask_places<L: Label>(tags: &[u8], first: usize, second: usize) -> Result<(), Refusal>
    ensures { result ≡ asked_of (places_in L.LENGTH tags.now first second) }
{
    refusals::ask(Question::HasItsBytes, tags.len() % L::LENGTH == 0)?;
    refusals::ask_positions(first, second, tags.len() / L::LENGTH)
}

/// The answer from the tags at two positions of a tag file.
#[tactic(auto, unfolding(crate::specs::Pairing::pair_at_by, crate::specs::Pairing::pair_answer_by, tag_bytes::specs::TagFile::looked_up))]
pub fn pair_at<L: Ruled>(tags: &[u8], first: usize, second: usize) -> PairAnswer
    ensures { result ≡ pair_at_by L.LENGTH L.between tags.now first second (L.numbers (L.label_of (part_of L.LENGTH tags.now first))) (L.numbers (L.label_of (part_of L.LENGTH tags.now second))) }
{
    match ask_places::<L>(tags, first, second) {
        Ok(()) => pair::<L>(lookup::<L>(tags, first), lookup::<L>(tags, second)),
        Err(refusal) => PairAnswer::Refused(refusal),
    }
}
