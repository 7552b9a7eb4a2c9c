// The one test of overlap, which is the margin's.
ghost use Rattle.std.specs.Prelude.{◌≡◌};
ghost use Rattle.overlap.specs.Overlap.{margin_reaches};

/// Whether end less offset reaches the minimum, where a window ends and one that stands behind it begins. Sums are compared, and no
/// difference, which might lie below 0. A pass over many windows forms the end or the offset that stays once, before its loop.
#[tactic(auto, unfolding(crate::specs::Overlap::margin_reaches))]
pub fn reaches(minimum: u32, end: u64, offset: u32) -> bool
    ensures { result ≡ margin_reaches minimum end offset }
{
    u64::from(offset) + u64::from(minimum) <= end
}
