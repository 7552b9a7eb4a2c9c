// The lines of the listing, as they are printed.
use refusals::Refusal;
use std::fmt;
use tree::Built;

// The first line of a plan: its number, and how many windows and components it has.
#[derive(Clone, Copy)]
pub(crate) struct Heading(pub(crate) Built);

impl fmt::Display for Heading {
    fn fmt<W: fmt::Write>(&self, f: &mut fmt::Formatter<W>) -> fmt::Result {
        let Built {
            plan,
            windows,
            components,
        } = self.0;
        write!(f, "{plan} {windows} {components}")
    }
}

// The line of a window: its position, and its entry in each of the five tables.
#[derive(Clone, Copy, Debug, PartialEq, Eq)]
pub(crate) struct Row {
    pub(crate) position: usize,
    pub(crate) parent: u16,
    pub(crate) component: u16,
    pub(crate) depth: u16,
    pub(crate) rank: u16,
    pub(crate) last_rank: u16,
}

impl fmt::Display for Row {
    fn fmt<W: fmt::Write>(&self, f: &mut fmt::Formatter<W>) -> fmt::Result {
        write!(
            f,
            "{} {} {} {} {} {}",
            self.position, self.parent, self.component, self.depth, self.rank, self.last_rank
        )
    }
}

// The only line of a file that is no accepted plan: the question that refuses it, and the position of the window that is at fault, or 0.
#[derive(Clone, Copy)]
pub(crate) struct Refused(pub(crate) Refusal);

impl fmt::Display for Refused {
    fn fmt<W: fmt::Write>(&self, f: &mut fmt::Formatter<W>) -> fmt::Result {
        write!(f, "refused {} {}", self.0.number, self.0.position)
    }
}
