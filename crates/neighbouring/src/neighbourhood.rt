// The windows that overlap one window: some of those before it, and behind it all up to its last. They are counted first, so that nothing
// is written where they do not fit.
ghost use Rattle.std.specs.Prelude.{◌≡◌, length};
ghost use Rattle.neighbouring.specs.Neighbours.{neighbours_of, neighbours_answer_of, after_neighbours};

use crate::spans::Span;
use plan::Plan;
use refusals::{Question, Refusal};

/// Writes the positions of the windows that overlap one window, rising, without itself. How many they are is returned.
#[tactic(auto, using(refusals::proofs::Questions::in_turn, crate::proofs::Neighbouring::neighbours_few), unfolding(crate::specs::Neighbours::neighbours_questions, crate::specs::Neighbours::neighbours_answer_of, crate::specs::Neighbours::after_neighbours))]
pub fn neighbours(file: &[u8], at: usize, out: &mut [u16]) -> Result<u16, Refusal>
    ensures value { result ≡ neighbours_answer_of file.now at (length out.old) }
    ensures out_after { out.new ≡ after_neighbours result (neighbours_of file.now at) out.old }
{
    let plan = Plan::new(file)?;
    refusals::ask(Question::IsThere, at < plan.len())?;
    let span = Span::new(&plan, at);
    let found = span.count_neighbours();
    refusals::ask(Question::HasRoom, found <= out.len())?;
    span.write_neighbours(out);
    Ok(found as u16)
}
