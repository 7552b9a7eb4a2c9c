// A page of any type of record.
ghost use Rattle.std.specs.Prelude.{◌≡◌, ◌%◌, List, ℕ, length, map};
ghost use Rattle.tag_bytes.specs.Fields.{tag_length};
ghost use Rattle.page.specs.Page.{page_answer_of, if_filled, to_fill};

use refusals::{Question, Refusal};
use tag::{Label, Tag};

/// Two positions, and the place for their answer. What stands there before is not read.
pub trait Record: Copy {
    // The record with the answer of a single pair at its positions, from any bytes: question 9 is asked of them once more.
    ghost as_one_pair: { List ℕ → Self → Self };

    // The record with the answer for its positions, from a file of whole tags.
    ghost filled: { List ℕ → Self → Self };

    /// The record with the answer of a single pair at its positions. Of a file of whole tags it is the record of a page.
    fn answered(self, tags: &[u8]) -> Self
        ensures value { result ≡ as_one_pair tags.now self }
        ensures of_whole_tags { length tags.now % tag_length ≡ 0 → result ≡ filled tags.now self };
}

/// Question 9 of the tag file, which is asked once for a page.
pub fn ask(tags: &[u8]) -> Result<(), Refusal>
    ensures { result ≡ page_answer_of tags.now }
{
    refusals::ask(Question::HasItsBytes, tags.len() % Tag::LENGTH == 0)
}

/// How many of so many records a page fills: all, or none where it is refused.
pub fn to_fill(tags: &[u8], records: usize) -> usize
    ensures { result ≡ to_fill (page_answer_of tags.now) records }
{
    match ask(tags) {
        Ok(()) => records,
        Err(_) => 0,
    }
}

/// Fills every record of a page. A refused page is left as it was.
pub fn fill<R: Record>(tags: &[u8], records: &mut [R]) -> Result<(), Refusal>
    ensures value { result ≡ page_answer_of tags.now }
    ensures records_after { records.new ≡ if_filled (page_answer_of tags.now) (map (R.filled tags.now) records.old) records.old }
{
    let count = to_fill(tags, records.len());
    for record in &mut records[..count] {
        *record = record.answered(tags);
    }
    ask(tags)
}
