// What crosses into C as one number of 64 bits: every answer, and a refusal.
ghost use Rattle.std.specs.Prelude.{◌≡◌, ℕ};

use crate::kind::Kind;
use refusals::Refusal;

pub trait Packed {
    // Its number.
    ghost packed: { Self → ℕ };

    fn pack(self) -> u64
        ensures { result ≡ packed self };
}

impl Packed for Refusal {
    ghost use Rattle.packing.specs.Packing.{packed_refusal};

    ghost packed = { packed_refusal };

    fn pack(self) -> u64 {
        Kind::Refused.with(u16::from(self.number), u16::from(self.input), self.position)
    }
}

impl<T: Packed> Packed for Result<T, Refusal> {
    ghost use Rattle.packing.specs.Packing.{packed_by};

    ghost packed = { packed_by T.packed };

    fn pack(self) -> u64 {
        match self {
            Ok(value) => value.pack(),
            Err(refusal) => refusal.pack(),
        }
    }
}
