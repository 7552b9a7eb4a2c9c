// The answers of the calls, where nothing is refused. One that is a number, a test or nothing in the call itself has a type here that says
// what it is of: its kind.
use crate::kind::Kind;
use crate::packed::Packed;
use numbering::Built;
use plan::Accepted;
use reaching::Reach;
use tag::PairAnswer;

/// The number of entries of a chain, if there is one.
#[derive(Clone, Copy, Debug, PartialEq, Eq)]
pub struct Chain(pub Option<u16>);

/// How many windows overlap one.
#[derive(Clone, Copy, Debug, PartialEq, Eq)]
pub struct Neighbours(pub u16);

/// Whether two plans are the same.
#[derive(Clone, Copy, Debug, PartialEq, Eq)]
pub struct Sameness(pub bool);

/// What was done by a call that answers by no number of its own. The margin, a signed number, is handed on beside the answer.
#[derive(Clone, Copy, Debug, PartialEq, Eq)]
pub enum Done {
    Found,
    Written,
    Filled,
    Measured,
}

impl Packed for Accepted {
    ghost use Rattle.packing.specs.Packing.{packed_accepted};

    ghost packed = { packed_accepted };

    fn pack(self) -> u64 {
        Kind::Accepted.with(self.plan, self.windows, 0)
    }
}

impl Packed for Built {
    ghost use Rattle.packing.specs.Packing.{packed_built};

    ghost packed = { packed_built };

    fn pack(self) -> u64 {
        Kind::Built.with(self.plan, self.windows, self.components)
    }
}

impl Packed for Reach {
    ghost use Rattle.packing.specs.Packing.{packed_farthest};

    ghost packed = { packed_farthest };

    fn pack(self) -> u64 {
        Kind::Reach.with(self.handovers, self.smaller, self.larger)
    }
}

impl Packed for Chain {
    ghost use Rattle.packing.specs.Packing.{packed_way};

    ghost packed = { λ chain. packed_way chain.0 };

    fn pack(self) -> u64 {
        match self.0 {
            Some(entries) => Kind::Chain.with(entries, 0, 0),
            None => Kind::NoChain.alone(),
        }
    }
}

impl Packed for Neighbours {
    ghost use Rattle.packing.specs.Packing.{packed_count};

    ghost packed = { λ neighbours. packed_count neighbours.0 };

    fn pack(self) -> u64 {
        Kind::Neighbours.with(self.0, 0, 0)
    }
}

impl Packed for Sameness {
    ghost use Rattle.packing.specs.Packing.{packed_test};

    ghost packed = { λ sameness. packed_test sameness.0 };

    fn pack(self) -> u64 {
        if self.0 {
            Kind::Same.alone()
        } else {
            Kind::Different.alone()
        }
    }
}

impl Packed for PairAnswer {
    ghost use Rattle.packing.specs.Packing.{packed_pair};

    ghost packed = { packed_pair };

    fn pack(self) -> u64 {
        match self {
            PairAnswer::Handovers(count) => Kind::Handovers.with(count, 0, 0),
            PairAnswer::NoChain => Kind::NoChain.alone(),
            PairAnswer::Refused(refusal) => refusal.pack(),
        }
    }
}

impl Packed for Done {
    ghost use Rattle.packing.specs.Packing.{packed_done};

    ghost packed = { packed_done };

    fn pack(self) -> u64 {
        match self {
            Done::Found => Kind::Found.alone(),
            Done::Written => Kind::Written.alone(),
            Done::Filled => Kind::Filled.alone(),
            Done::Measured => Kind::Margin.alone(),
        }
    }
}
