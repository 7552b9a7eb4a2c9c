// The last of each window, by a search over the later windows' offsets, which do not fall. Paper 02, Q-3: the window's offset and length
// are added once, "before it looks at the later ones; its loop forms no such sum", nor the bound.
ghost use Rattle.std.specs.Prelude.{◌≡◌, ◌≤◌, ◌<◌, length};
ghost use Rattle.sequences.specs.Table.{table, overwritten};
ghost use Rattle.plan.specs.Validation.{greatest_count};
ghost use Rattle.plan.specs.File.{window_count};
ghost use Rattle.plan.specs.Plan.{bytes_of};
ghost use Rattle.minutes.specs.Tables.{last_of};
ghost use Rattle.minutes.specs.SingleTable.{table_answer_of, after_table};
ghost use Rattle.minutes.specs.Passes.{Prepared, Quartered, Sorted, LastBefore};

use crate::windows::{bound_at, read_offsets};
use plan::{GREATEST_COUNT, GREATEST_END, Plan};
use refusals::{Question, Refusal};

// A plan of no more windows is searched in four steps and not in six.
const FEW: usize = 256;

// What stands in the table of offsets behind those of the windows. No bound lies past it, since none lies past an end.
const FILLING: u32 = GREATEST_END as u32;

// The last of the first positions whose offset lies before the bound; 0 where there is none. Of three comparisons at a time none
// waits for another, and they are a factor, so that the search compiles to no branch that a processor would have to guess: the library's
// `partition_point` branches, and takes 65 ns a window where this takes 10.
fn last_within(offsets: &[u32], bound: u32, size: usize) -> usize
    requires size_nonzero { 0 < size }
    requires quartered { Quartered size }
    requires size_le_greatest_count { size ≤ greatest_count }
    requires greatest_count_in_bounds { greatest_count ≤ length offsets.now }
    requires sorted { Sorted offsets.now size }
    ensures { LastBefore offsets.now bound size result }
{
    let mut low = 0;
    let mut width = size;
    while 2 < width {
        let quarter = width / 4;
        let first = usize::from(offsets[low + quarter] < bound);
        let second = usize::from(offsets[low + 2 * quarter] < bound);
        let third = usize::from(offsets[low + 3 * quarter] < bound);
        low += quarter * (first + second + third);
        width = quarter;
    }
    // One is left, or two.
    let more = width - 1;
    low + more * usize::from(offsets[low + more] < bound)
}

// The last position whose offset lies before the bound; 0 where there is none. The table is as long for every plan, so that the
// steps are known beforehand.
fn last_before(offsets: &[u32], bound: u32) -> usize
    requires greatest_count_in_bounds { greatest_count ≤ length offsets.now }
    requires sorted { Sorted offsets.now greatest_count }
    ensures { LastBefore offsets.now bound greatest_count result }
{
    // Where a plan has no more windows, the filling begins here or before, and no offset from here on lies before a bound.
    if offsets[FEW] == FILLING {
        return last_within(offsets, bound, FEW);
    }
    last_within(offsets, bound, GREATEST_COUNT)
}

#[tactic(auto, using(sequences::proofs::Table::by_table))]
fn find_lasts(plan: &Plan, offsets: &[u32], lasts: &mut [u16])
    requires prepared { Prepared (bytes_of plan.now) (window_count (bytes_of plan.now)) offsets.now }
    requires windows_in_bounds { window_count (bytes_of plan.now) ≤ length lasts.old }
    ensures { lasts.new ≡ overwritten lasts.old (table (last_of (bytes_of plan.now)) (window_count (bytes_of plan.now))) }
{
    for position in 0..plan.len() {
        lasts[position] = last_before(offsets, bound_at(plan, position)) as u16;
    }
}

pub(crate) fn fill_lasts(plan: &Plan, lasts: &mut [u16])
    requires { window_count (bytes_of plan.now) ≤ length lasts.old }
    ensures { lasts.new ≡ overwritten lasts.old (table (last_of (bytes_of plan.now)) (window_count (bytes_of plan.now))) }
{
    let mut offsets = [FILLING; GREATEST_COUNT];
    read_offsets(plan, &mut offsets);
    find_lasts(plan, &offsets, lasts);
}

// The twin of `parent_table` but for the pass. One function for both would take the pass as a closure and speak of what it may be called with; it
// would be no shorter than these four lines.
/// The last table by itself: question 8 after the plan's. Answers with the number of windows.
#[tactic(auto, using(refusals::proofs::Questions::in_turn), unfolding(crate::specs::SingleTable::table_questions, crate::specs::SingleTable::table_answer_of, crate::specs::SingleTable::after_table))]
pub fn last_table(file: &[u8], lasts: &mut [u16]) -> Result<u16, Refusal>
    ensures value { result ≡ table_answer_of file.now (length lasts.old) }
    ensures lasts_after { lasts.new ≡ after_table result (last_of file.now) lasts.old }
{
    let plan = Plan::new(file)?;
    refusals::ask(Question::HasRoom, plan.len() <= lasts.len())?;
    fill_lasts(&plan, lasts);
    Ok(plan.count())
}
