// The run of windows from one of a plan up to the last that it overlaps, and the neighbours of that window.
ghost use Rattle.std.specs.Prelude.{◌≡◌, ◌+◌, ◌≤◌, ◌<◌, length};
ghost use Rattle.sequences.specs.Search.{passing};
ghost use Rattle.sequences.specs.Table.{table, overwritten};
ghost use Rattle.wire.specs.LittleEndian.{placed};
ghost use Rattle.plan.specs.File.{window_count, window_at};
ghost use Rattle.plan.specs.Plan.{bytes_of};
ghost use Rattle.overlap.specs.Overlap.{overlaps};
ghost use Rattle.minutes.specs.Tables.{last_of};
ghost use Rattle.neighbouring.specs.Neighbours.{neighbours_of};

use plan::Plan;

/// A window of a plan, where it begins, and the last window that it overlaps, or itself where it overlaps none behind it.
#[derive(Clone, Copy, Debug)]
pub(crate) struct Span<'a> {
    plan: Plan<'a>,
    at: usize,
    offset: u32,
    last: usize,
    ghost there: { at < window_count (bytes_of plan) },
    ghost begins: { offset ≡ (window_at (bytes_of plan) at).offset },
    ghost ends: { last ≡ last_of (bytes_of plan) at },
}

impl<'a> Span<'a> {
    pub(crate) fn new(plan: &Plan<'a>, at: usize) -> Self
        requires { at < window_count (bytes_of plan.now) }
        ensures same_plan { bytes_of result.plan ≡ bytes_of plan.now }
        ensures same_at { result.at ≡ at }
    {
        Span {
            plan: *plan,
            at,
            offset: plan.window(at).unwrap().offset,
            last: last_at(plan, at),
        }
    }

    // Whether a window before it overlaps it.
    #[tactic(auto, using(crate::proofs::Meeting::meets_earlier))]
    fn meets(&self, position: usize) -> bool
        requires { position < self.now.at }
        ensures { result ≡ overlaps (bytes_of self.now.plan) self.now.at position }
    {
        let end = self.plan.window(position).unwrap().end();
        overlap::reaches(self.plan.minimum(), end, self.offset)
    }

    /// How many windows overlap it.
    #[tactic(auto, using(crate::proofs::Neighbouring::counting), unfolding(sequences::specs::Search::passing))]
    pub(crate) fn count_neighbours(&self) -> usize
        ensures { result ≡ length (neighbours_of (bytes_of self.now.plan) self.now.at) }
    {
        let mut earlier = 0;
        for position in 0..self.at {
            // A sum and not a branch: which windows overlap cannot be foreseen.
            earlier += usize::from(self.meets(position));
        }
        earlier + (self.last - self.at)
    }

    // Writes those before the window, and answers with how many there are.
    #[tactic(auto, using(crate::proofs::Neighbouring::listing), unfolding(sequences::specs::Search::passing))]
    fn write_earlier(&self, out: &mut [u16]) -> usize
        requires { length (passing (overlaps (bytes_of self.now.plan) self.now.at) 0 self.now.at) ≤ length out.old }
        ensures value { result ≡ length (passing (overlaps (bytes_of self.now.plan) self.now.at) 0 self.now.at) }
        ensures out_after { out.new ≡ overwritten out.old (passing (overlaps (bytes_of self.now.plan) self.now.at) 0 self.now.at) }
    {
        // Counted by hand: an adapter that writes below a filter says nothing of the slice afterwards.
        let mut found = 0;
        for position in 0..self.at {
            if self.meets(position) {
                out[found] = position as u16;
                found += 1;
            }
        }
        found
    }

    /// Writes them all, rising.
    #[tactic(auto, using(crate::proofs::Neighbouring::writing))]
    pub(crate) fn write_neighbours(&self, out: &mut [u16])
        requires { length (neighbours_of (bytes_of self.now.plan) self.now.at) ≤ length out.old }
        ensures { out.new ≡ overwritten out.old (neighbours_of (bytes_of self.now.plan) self.now.at) }
    {
        let written = self.write_earlier(out);
        write_run(self.at + 1, self.last - self.at, written, out);
    }
}

// The last window that the one at a position overlaps, or that one where it overlaps none behind it. Offsets do not fall, so half of
// what is left is passed over at a time. By the library's `partition_point` the
// file would first be cut into parts of eight bytes, and a closure would read each anew: no plainer than these two bounds.
#[tactic(auto, using(plan::proofs::Acceptance::few_windows))]
fn last_at(plan: &Plan, at: usize) -> usize
    requires { at < window_count (bytes_of plan.now) }
    ensures { result ≡ last_of (bytes_of plan.now) at }
{
    let end = plan.window(at).unwrap().end();
    let mut low = at;
    let mut high = plan.len();
    while low + 1 < high {
        let middle = (low + high) / 2;
        if overlap::reaches(plan.minimum(), end, plan.window(middle).unwrap().offset) {
            low = middle;
        } else {
            high = middle;
        }
    }
    low
}

// Writes so many positions from one on, behind what was written.
#[tactic(auto, using(crate::proofs::Neighbouring::running), unfolding(sequences::specs::Table::table))]
fn write_run(from: usize, many: usize, written: usize, out: &mut [u16])
    requires many_bound { from + many ≤ 65536 }
    requires many_in_bounds { written + many ≤ length out.old }
    ensures { out.new ≡ placed out.old written (table (λ i. from + i) many) }
{
    for step in 0..many {
        out[written + step] = (from + step) as u16;
    }
}
