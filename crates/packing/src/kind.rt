// By what C tells answers apart.
ghost use Rattle.std.specs.Prelude.{◌≡◌};
ghost use Rattle.packing.specs.Packing.{packed};
ghost use Rattle.packing.specs.Kinds.{number_of};

/// A kind belongs to one variant of one answer in the whole interface.
#[derive(Clone, Copy, Debug, PartialEq, Eq)]
pub(crate) enum Kind {
    Refused = 0,
    Accepted = 1,
    Built = 2,
    Reach = 3,
    Chain = 4,
    NoChain = 5,
    Neighbours = 6,
    Same = 7,
    Different = 8,
    Handovers = 9,
    Found = 10,
    Written = 11,
    Filled = 12,
    Margin = 13,
}

impl Kind {
    fn number(self) -> u16
        ensures { result ≡ number_of self }
    {
        self as u16
    }

    // Four fields of 16 bits, the kind lowest.
    pub(crate) fn with(self, first: u16, second: u16, third: u16) -> u64
        ensures { result ≡ packed (number_of self) first second third }
    {
        u64::from(self.number())
            + 65536 * u64::from(first)
            + 4294967296 * u64::from(second)
            + 281474976710656 * u64::from(third)
    }

    // Of an answer that has no number of its own.
    pub(crate) fn alone(self) -> u64
        ensures { result ≡ packed (number_of self) 0 0 0 }
    {
        self.with(0, 0, 0)
    }
}
