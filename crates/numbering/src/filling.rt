// Parents and lasts from the windows' minutes, and then the passes over them, one after the other.
ghost use Rattle.std.specs.Prelude.{◌≡◌, length};
ghost use Rattle.minutes.specs.Tables.{parent_of};
ghost use Rattle.numbering.specs.Tables.{component_of, depth_of, rank_of, last_rank_of};
ghost use Rattle.numbering.specs.Numbering.{least_room, numbers_answer_of, after_build};

use refusals::Refusal;

/// What is said of tables that were filled: the plan number, how many windows there are, and how many components.
#[derive(Clone, Copy, Debug, PartialEq, Eq)]
pub struct Built {
    pub plan: u16,
    pub windows: u16,
    pub components: u16,
}

/// The five tables, where they and what the caller has elsewhere, with room for so many windows, hold the plan's. The lasts stand in the
/// place of their ranks until these are known.
// The tables are lent one by one, as C lends them: of a struct of five a clause could name a table by its place alone, as
// `tables.exit.1.1.0.now`.
#[tactic(auto, using(crate::proofs::Filled::numbers_tables), unfolding(minutes::specs::SingleTable::after_table, crate::specs::Numbering::after_build))]
pub fn fill_numbers(
    file: &[u8],
    room: usize,
    parents: &mut [u16],
    components: &mut [u16],
    depths: &mut [u16],
    ranks: &mut [u16],
    last_ranks: &mut [u16],
) -> Result<Built, Refusal>
    ensures value { result ≡ numbers_answer_of file.now (least_room room (length parents.old) (length components.old) (length depths.old) (length ranks.old) (length last_ranks.old)) }
    ensures parents_after { parents.new ≡ after_build result (parent_of file.now) parents.old }
    ensures components_after { components.new ≡ after_build result (component_of file.now) components.old }
    ensures depths_after { depths.new ≡ after_build result (depth_of file.now) depths.old }
    ensures ranks_after { ranks.new ≡ after_build result (rank_of file.now) ranks.old }
    ensures last_ranks_after { last_ranks.new ≡ after_build result (last_rank_of file.now) last_ranks.old }
{
    let least = room
        .min(components.len())
        .min(depths.len())
        .min(ranks.len());
    let windows = minutes::fill_tables(file, least, parents, last_ranks)?;
    let n = usize::from(windows);
    let found = forest::fill_levels(parents, n, components, depths);
    forest::fill_ranks(parents, n, ranks);
    forest::look_up(ranks, n, last_ranks);
    Ok(Built {
        plan: wire::read_u16(file, 0),
        windows,
        components: found,
    })
}
