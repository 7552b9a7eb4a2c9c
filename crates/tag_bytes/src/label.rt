// What every tag is, long or short: numbers of two bytes each, one behind the other. Reading one asks whether it has its bytes and whether its
// fields are small, and writing one whether there is room and whether its fields are small.
ghost use Rattle.std.specs.Prelude.{◌≡◌, ◌<◌, ◌≤◌, ℕ, List, length, take, Ok, Err};
ghost use Rattle.interval_graph.specs.Numbers.{Numbers};
ghost use Rattle.refusals.specs.Question.{first_no, asked_of};
ghost use Rattle.tag_bytes.specs.Fields.{tag_length, tag_bytes, tag_with};
ghost use Rattle.tag_bytes.specs.Reading.{tag_questions, refusal_of};
ghost use Rattle.tag_bytes.specs.Writing.{put_questions, after_put};

use crate::tag::Tag;
use refusals::{Question, Refusal};

pub trait Label: Copy {
    /// How many bytes it has.
    const LENGTH: usize;

    /// The greatest number in a field after the plan number.
    const FIELD_LIMIT: u16;

    ghost LENGTH: { ℕ };

    ghost FIELD_LIMIT: { ℕ };

    // Its numbers, with 0 for one that it does not have; the one that bytes hold; and the bytes of the one with given numbers.
    ghost numbers: { Self → Numbers };

    ghost label_of: { List ℕ → Self };

    ghost bytes_of: { Numbers → List ℕ };

    /// The one in its bytes, whatever they are.
    fn of_bytes(bytes: &[u8]) -> Self
        ensures { result ≡ label_of bytes.now };

    /// The long tag with its numbers.
    fn to_tag(self) -> Tag
        ensures { result ≡ tag_with (numbers self) };

    // It has some bytes, and no more than the long tag with its numbers, which begins with them.
    ghost some_bytes: { 0 < LENGTH };

    ghost few_bytes: { LENGTH ≤ tag_length };

    ghost has_its_length: { (n : Numbers) → length (bytes_of n) ≡ LENGTH };

    ghost begins_the_tag: { (n : Numbers) → bytes_of n ≡ take LENGTH (tag_bytes n) };

    /// The one in its bytes. A reading does not know which input it is of, so a refusal names the first: see `refusal`.
    final fn read(bytes: &[u8]) -> Result<Self, Refusal>
        ensures { result ≡ first_no (tag_questions LENGTH bytes.now (numbers (label_of bytes.now))) Err (Ok (label_of bytes.now)) }
    {
        refusals::ask(Question::HasItsBytes, bytes.len() == Self::LENGTH)?;
        let label = Self::of_bytes(bytes);
        refusals::ask(Question::HasSmallFields, label.to_tag().is_within_limit())?;
        Ok(label)
    }

    /// The refusal of a reading, of the input named; all zeros where nothing was refused.
    final fn refusal(read: Result<Self, Refusal>, input: u8) -> Refusal
        ensures { result ≡ refusal_of read input }
    {
        match read {
            Ok(_) => Refusal::by(0),
            Err(refusal) => refusal.from(input),
        }
    }

    /// Fills the front of a table with its bytes.
    #[tactic(auto, unfolding(sequences::specs::Table::overwritten))]
    final fn write(self, out: &mut [u8]) -> Result<(), Refusal>
        ensures value { result ≡ asked_of (put_questions LENGTH (numbers self) out.old) }
        ensures out_after { out.new ≡ after_put result (bytes_of (numbers self)) out.old }
    {
        refusals::ask(Question::HasRoom, Self::LENGTH <= out.len())?;
        let tag = self.to_tag();
        refusals::ask(Question::HasSmallFields, tag.is_within_limit())?;
        out[..Self::LENGTH].copy_from_slice(&tag.to_bytes()[..Self::LENGTH]);
        Ok(())
    }
}
