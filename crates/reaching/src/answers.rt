// What the call of this crate answers.

/// The greatest number of handovers between two windows of a component, and the positions of the first two that have it.
#[derive(Clone, Copy, Debug, PartialEq, Eq)]
pub struct Reach {
    pub handovers: u16,
    pub smaller: u16,
    pub larger: u16,
}
