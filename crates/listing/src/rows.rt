// The tables of a plan, and a row of them for each window.
ghost use Rattle.std.specs.Prelude.{◌<◌};

use crate::lines::Row;
use plan::GREATEST_COUNT;
use std::io;

// The five tables that the build fills, with room for the greatest plan.
#[derive(Clone, Debug, PartialEq, Eq, Drop)]
pub(crate) struct Tables {
    pub(crate) parents: [u16; GREATEST_COUNT],
    pub(crate) components: [u16; GREATEST_COUNT],
    pub(crate) depths: [u16; GREATEST_COUNT],
    pub(crate) ranks: [u16; GREATEST_COUNT],
    pub(crate) last_ranks: [u16; GREATEST_COUNT],
}

impl Tables {
    pub(crate) fn new() -> Self {
        Tables {
            parents: [0; GREATEST_COUNT],
            components: [0; GREATEST_COUNT],
            depths: [0; GREATEST_COUNT],
            ranks: [0; GREATEST_COUNT],
            last_ranks: [0; GREATEST_COUNT],
        }
    }

    fn row(&self, position: usize) -> Row
        requires { position < GREATEST_COUNT }
    {
        Row {
            position,
            parent: self.parents[position],
            component: self.components[position],
            depth: self.depths[position],
            rank: self.ranks[position],
            last_rank: self.last_ranks[position],
        }
    }

    // The rows of the first windows, of which there are at most as many as the tables have entries.
    pub(crate) fn print_rows(&self, rt: &impl Print, windows: u16) -> io::Result<()> {
        for position in 0..usize::from(windows).min(GREATEST_COUNT) {
            rt.println(self.row(position))?;
        }
        Ok(())
    }
}
