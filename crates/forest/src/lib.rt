// Passes over a table of parents: components and depths, ranks, and a look-up of one table's entries in another. Every table
// of parents is taken; no plan is in sight. How many entries to go through is asked beside the tables, and no part of one is cut out: each
// call is promised for every number, also one past its tables (`covered`, in the clauses of `fill_levels` and `fill_ranks`; the least of three numbers in
// that of `look_up`). The passes inside are handed the number that was formed of it.
#![tactic(auto)]

mod levels;
mod lookups;
mod parents;
mod ranks;
mod sizes;

pub use levels::fill_levels;
pub use lookups::look_up;
pub use ranks::fill_ranks;
