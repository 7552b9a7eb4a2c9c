// Whether two plans are the same. The pairs that overlap are the same exactly if every window's last is, so the plans'
// tables of lasts are compared, and no pairs.
#![tactic(auto)]

ghost use Rattle.std.specs.Prelude.{◌≡◌};
ghost use Rattle.sameness.specs.Sameness.{same_answer_of};

use plan::GREATEST_COUNT;
use refusals::Refusal;

/// Whether two plans have as many windows and the same pairs of positions overlap.
#[tactic(auto, using(refusals::proofs::Questions::in_turn, crate::proofs::Sameness::by_lasts), unfolding(crate::specs::Sameness::same_questions, crate::specs::Sameness::same_answer_of, minutes::specs::SingleTable::after_table))]
pub fn same(first: &[u8], second: &[u8]) -> Result<bool, Refusal>
    ensures { result ≡ same_answer_of first.now second.now }
{
    // Both tables are as long as any plan's and lie on the stack: the library has no heap, and so no `Vec` of just the windows.
    let mut lasts = [0; GREATEST_COUNT];
    let windows = minutes::last_table(first, &mut lasts)?;
    let mut others = [0; GREATEST_COUNT];
    let count = minutes::last_table(second, &mut others).map_err(|refusal| refusal.from(1))?;
    Ok(lasts[..usize::from(windows)] == others[..usize::from(count)])
}
