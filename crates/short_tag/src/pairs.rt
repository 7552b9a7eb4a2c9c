// The answer from two short tags, and from two positions of a file of them.
ghost use Rattle.std.specs.Prelude.{◌≡◌};
ghost use Rattle.short_tag.specs.ShortPairing.{short_pair_answer_of, short_pair_at_answer_of};

use tag::{PairAnswer, ShortTag};

/// The answer from the bytes of two short tags. The second is not read where the first is refused.
pub fn short_pair(first: &[u8], second: &[u8]) -> PairAnswer
    ensures { result ≡ short_pair_answer_of first.now second.now }
{
    tag::pair::<ShortTag>(first, second)
}

/// The answer from the short tags at two positions of a file of them.
pub fn short_pair_at(tags: &[u8], first: usize, second: usize) -> PairAnswer
    ensures { result ≡ short_pair_at_answer_of tags.now first second }
{
    tag::pair_at::<ShortTag>(tags, first, second)
}
