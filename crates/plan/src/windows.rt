// A window of a plan file: where it stands, read and written, its end, and what is asked of it.
ghost use Rattle.std.specs.Prelude.{◌≡◌};
ghost use Rattle.wire.specs.LittleEndian.{placed};
ghost use Rattle.refusals.specs.Question.{about, asked_of};
ghost use Rattle.plan.specs.File.{window_place, window_of, window_at, window_bytes, end_of};
ghost use Rattle.plan.specs.Validation.{own_questions, window_questions};

use crate::figures::{GREATEST_END, HEADER_LENGTH, WINDOW_LENGTH};
use refusals::{Question, Refusal};

/// A time in which equipment may be handed on, in the plan's unit of time.
#[derive(Clone, Copy, Debug, PartialEq, Eq)]
pub struct Window {
    pub offset: u32,
    pub length: u32,
}

impl Window {
    /// The window in its own eight-byte part of the file.
    #[tactic(auto, unfolding(crate::specs::File::window_of))]
    pub fn read(part: &[u8]) -> Self
        ensures { result ≡ window_of part.now }
    {
        Window {
            offset: wire::read_u32(part, 0),
            length: wire::read_u32(part, 4),
        }
    }

    /// Writes the window's eight bytes at `at`, or nothing where they do not all fit.
    #[tactic(auto, using(crate::proofs::Written::window_placed, crate::proofs::Written::window_unplaced))]
    pub fn write(self, out: &mut [u8], at: usize)
        ensures { out.new ≡ placed out.old at (window_bytes self) }
    {
        if at <= out.len() && WINDOW_LENGTH <= out.len() - at {
            wire::write_u32(out, at, self.offset);
            wire::write_u32(out, at + 4, self.length);
        }
    }

    /// The true sum of offset and length, which 32 bits may not hold.
    #[tactic(auto, unfolding(crate::specs::File::end_of))]
    pub fn end(self) -> u64
        ensures { result ≡ end_of self }
    {
        u64::from(self.offset) + u64::from(self.length)
    }

    /// Questions 4 and 5, which a window of a plan with this minimum is put to by itself.
    pub fn ask(self, minimum: u32) -> Result<(), Refusal>
        ensures { result ≡ asked_of (own_questions minimum self) }
    {
        refusals::ask(Question::IsLongEnough, minimum <= self.length)?;
        refusals::ask(Question::EndsInTime, self.end() <= GREATEST_END)
    }

    // Questions 4, 5 and 6 of a window. `before` is the offset of the window before it.
    #[tactic(auto, unfolding(crate::specs::Validation::window_questions))]
    fn ask_behind(self, minimum: u32, before: u32) -> Result<(), Refusal>
        ensures { result ≡ asked_of (window_questions minimum before self) }
    {
        self.ask(minimum)?;
        refusals::ask(Question::IsInOrder, before <= self.offset)
    }

    // The same of the window at a position.
    #[tactic(auto, unfolding(crate::specs::Validation::window_questions))]
    pub(crate) fn ask_at(self, position: u16, minimum: u32, before: u32) -> Result<(), Refusal>
        ensures { result ≡ asked_of (about position (window_questions minimum before self)) }
    {
        self.ask_behind(minimum, before)
            .map_err(|refusal| refusal.about(position))
    }
}

/// Where the part of the window at a position begins, and so how many bytes a file of that many windows has.
pub fn window_place(position: u16) -> usize
    ensures { result ≡ window_place position }
{
    HEADER_LENGTH + WINDOW_LENGTH * usize::from(position)
}

/// The window at a position of any file. A byte past the end of the file is read as 0, as in its part. (Of an accepted plan `Plan::window` reads it,
/// and tests no byte.)
#[tactic(auto, using(crate::proofs::Reading::window_read))]
pub fn window_at(file: &[u8], position: u16) -> Window
    ensures { result ≡ window_at file.now position }
{
    let at = window_place(position);
    Window {
        offset: wire::read_u32(file, at),
        length: wire::read_u32(file, at + 4),
    }
}
