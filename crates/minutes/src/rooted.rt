// An accepted plan with the parents of its windows.
ghost use Rattle.std.specs.Prelude.{◌≡◌, ◌≤◌};
ghost use Rattle.sequences.specs.Table.{Holds};
ghost use Rattle.plan.specs.File.{window_count};
ghost use Rattle.plan.specs.Plan.{bytes_of};
ghost use Rattle.plan.specs.Validation.{greatest_count};
ghost use Rattle.minutes.specs.Tables.{parent_of};

use crate::parents::find_parents;
use plan::{GREATEST_COUNT, Plan};

/// What chains and reach are read from: an accepted plan, and for each window the first before it that it overlaps, or itself.
#[derive(Clone, Copy, Debug)]
pub struct Rooted<'a> {
    plan: Plan<'a>,
    parents: &'a [u16],
    ghost held: { Holds parents.now (parent_of plan.file.now) (window_count plan.file.now) },
}

impl<'a> Rooted<'a> {
    ghost use Rattle.minutes.specs.Rooted.{plan_of, table_of, with_parents, above};

    /// Finds the parents of the plan's windows, in a table that is lent for it and so is not copied. What lies past them there stays.
    #[tactic(auto, using(plan::proofs::Acceptance::few_windows))]
    pub fn new(plan: Plan<'a>, table: &'a mut [u16; GREATEST_COUNT]) -> Self
        ensures same_plan { plan_of result ≡ bytes_of plan.entry }
        ensures table_after { table_of result ≡ with_parents (bytes_of plan.entry) table.old }
    {
        find_parents(&plan, table);
        Rooted {
            plan,
            parents: table,
        }
    }

    /// The plan.
    pub fn plan(&self) -> Plan<'a>
        ensures { bytes_of result ≡ plan_of self.now }
    {
        self.plan
    }

    /// How many windows there are.
    pub fn len(&self) -> usize
        ensures counted { result ≡ window_count (plan_of self.now) }
        ensures few { result ≤ greatest_count }
    {
        self.plan.len()
    }

    /// The parents of all windows as a table, for walks that need not ask whether there is one: a root's entry is its own position.
    pub fn parents(&self) -> &'a [u16]
        ensures { Holds result.now (parent_of (plan_of self.now)) (window_count (plan_of self.now)) }
    {
        self.parents
    }

    /// The parent of a window, where it has one.
    #[tactic(auto, using(plan::proofs::Acceptance::few_windows))]
    pub fn parent(&self, at: usize) -> Option<usize>
        ensures { result ≡ above (plan_of self.now) at }
    {
        if at < self.len() && usize::from(self.parents[at]) < at {
            Some(usize::from(self.parents[at]))
        } else {
            None
        }
    }
}
