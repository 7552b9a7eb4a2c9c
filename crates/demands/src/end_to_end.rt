// From a plan file and two positions to what two readers learn from their tags and what the plan answers.
ghost use Rattle.std.specs.Prelude.{◌≡◌, ◌<◌, length};
ghost use Rattle.plan.specs.File.{window_count};
ghost use Rattle.plan.specs.Validation.{AcceptedPlan};
ghost use Rattle.path.specs.Chain.{chain_between, chain_answer_of, after_chain};
ghost use Rattle.demands.specs.EndToEnd.{pair_from_plan, Answered};

use plan::GREATEST_COUNT;
use refusals::Refusal;
use tag::{Label, PairAnswer, Tag};

/// What is learnt of two windows.
#[derive(Clone, Copy, Debug, PartialEq, Eq)]
pub struct Answers {
    /// From the two tags alone.
    pub pair: PairAnswer,
    /// From the plan: how many entries of the chain were written, or that there is none.
    pub chain: Result<Option<u16>, Refusal>,
}

// The answer from the two windows' tags, or the refusal of the file or of a position.
fn pair_from_plan(file: &[u8], first: usize, second: usize) -> PairAnswer
    ensures { result ≡ pair_from_plan file.now first second }
{
    let mut tags = [0; Tag::LENGTH * GREATEST_COUNT];
    match tree::tag_file(file, &mut tags) {
        Ok(built) => {
            let end = Tag::LENGTH * usize::from(built.windows);
            tag::pair_at::<Tag>(&tags[..end], first, second)
        }
        Err(refusal) => PairAnswer::Refused(refusal),
    }
}

/// Runs validation, build, lookup, pair and chain.
pub fn answer_all(file: &[u8], first: usize, second: usize, out: &mut [u16]) -> Answers
    ensures pair_value { result.pair ≡ pair_from_plan file.now first second }
    ensures chain_value { result.chain ≡ chain_answer_of file.now first second (length out.old) }
    ensures out_after { out.new ≡ after_chain result.chain (chain_between file.now first second) out.old }
    ensures answered { AcceptedPlan file.now → first < window_count file.now → second < window_count file.now → Answered file.now first second result.pair result.chain out.new }
{
    let pair = pair_from_plan(file, first, second);
    let chain = path::chain(file, first, second, out);
    Answers { pair, chain }
}
