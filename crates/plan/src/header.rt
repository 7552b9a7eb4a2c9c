// What stands before the windows of a plan file.
ghost use Rattle.std.specs.Prelude.{◌≡◌};
ghost use Rattle.wire.specs.LittleEndian.{placed};
ghost use Rattle.plan.specs.File.{minimum_handover, header_bytes};

use crate::figures::{HEADER_LENGTH, MINIMUM_PLACE};

/// How many minutes two windows must share to overlap.
#[tactic(auto, unfolding(crate::specs::File::minimum_handover))]
pub fn minimum_handover(file: &[u8]) -> u32
    ensures { result ≡ minimum_handover file.now }
{
    wire::read_u32(file, MINIMUM_PLACE)
}

/// Writes what stands before the windows, or nothing where it does not all fit.
#[tactic(auto, using(crate::proofs::Written::header_placed, crate::proofs::Written::header_unplaced))]
pub fn write_header(plan: u16, windows: u16, minimum: u32, out: &mut [u8])
    ensures { out.new ≡ placed out.old 0 (header_bytes plan windows minimum) }
{
    if HEADER_LENGTH <= out.len() {
        wire::write_u16(out, 0, plan);
        wire::write_u16(out, 2, windows);
        wire::write_u32(out, MINIMUM_PLACE, minimum);
    }
}
