// A plan file that has been asked, and is accepted.
ghost use Rattle.std.specs.Prelude.{◌≡◌, ◌+◌, ◌<◌, ◌≤◌, length, IfOk, Err};
ghost use Rattle.refusals.specs.Question.{asked_of, each};
ghost use Rattle.plan.specs.File.{file_length, plan_number, window_count, minimum_handover, window_at};
ghost use Rattle.plan.specs.Validation.{AcceptedPlan, greatest_count, plan_questions, asked_with};

use crate::figures::{GREATEST_COUNT, GREATEST_MINIMUM, HEADER_LENGTH, WINDOW_LENGTH};
use crate::header::minimum_handover;
use crate::windows::{Window, window_place};
use refusals::{Question, Refusal};

/// An accepted plan, in the file that it was read from.
#[derive(Clone, Copy, Debug)]
pub struct Plan<'a> {
    file: &'a [u8],
    len: u16,
    minimum: u32,
    ghost accepted: { AcceptedPlan file.now },
    ghost counted: { len ≡ window_count file.now },
    ghost least: { minimum ≡ minimum_handover file.now },
}

impl<'a> Plan<'a> {
    ghost use Rattle.std.specs.Prelude.{IfErr};
    ghost use Rattle.plan.specs.Plan.{bytes_of, window_in};

    /// Asks a plan file questions 1, 2, 14 and 3, and then 4, 5 and 6 of each window.
    #[tactic(auto, using(refusals::proofs::Questions::in_turn), unfolding(crate::specs::File::window_count, crate::specs::Validation::file_questions, crate::specs::Validation::plan_questions))]
    pub fn new(file: &'a [u8]) -> Result<Self, Refusal>
        ensures ok { IfOk result (λ plan. bytes_of plan ≡ file.now) }
        ensures err { IfErr result (λ refusal. asked_of (plan_questions file.now) ≡ Err refusal) }
    {
        refusals::ask(Question::HasHeader, HEADER_LENGTH <= file.len())?;
        let len = wire::read_u16(file, 2);
        refusals::ask(Question::HasFewWindows, usize::from(len) <= GREATEST_COUNT)?;
        let minimum = minimum_handover(file);
        refusals::ask(
            Question::HasMinimum,
            1 <= minimum && minimum <= GREATEST_MINIMUM,
        )?;
        refusals::ask(Question::HasItsLength, file.len() == window_place(len))?;
        ask_windows(file, minimum, len)?;
        Ok(Plan { file, len, minimum })
    }

    /// The bytes of the file.
    pub fn bytes(&self) -> &'a [u8]
        ensures { result.now ≡ bytes_of self.now }
    {
        self.file
    }

    /// The plan number.
    #[tactic(auto, unfolding(crate::specs::File::plan_number))]
    pub fn number(&self) -> u16
        ensures { result ≡ plan_number (bytes_of self.now) }
    {
        wire::read_u16(self.file, 0)
    }

    /// How many windows there are.
    #[tactic(auto, using(crate::proofs::Acceptance::few_windows))]
    pub fn len(&self) -> usize
        ensures counted { result ≡ window_count (bytes_of self.now) }
        ensures few { result ≤ greatest_count }
    {
        usize::from(self.len)
    }

    /// How many windows there are, in the 16 bits that an answer or a table's entry has for it. (Every position and count fits them: `as u16` is
    /// proved to lose nothing wherever one is narrowed, and there is no `From` that narrows.)
    pub fn count(&self) -> u16
        ensures { result ≡ window_count (bytes_of self.now) }
    {
        self.len
    }

    /// How much two windows must share to overlap.
    pub fn minimum(&self) -> u32
        ensures { result ≡ minimum_handover (bytes_of self.now) }
    {
        self.minimum
    }

    /// The window at a position, where there is one.
    // A pass that knows its position asks of it to be below `len`, in a `requires` of its own: each has another position, and a type for one
    // would save none of them a line.
    #[tactic(auto, using(crate::proofs::Acceptance::whole_file, crate::proofs::Acceptance::few_windows))]
    pub fn window(&self, at: usize) -> Option<Window>
        ensures { result ≡ window_in (bytes_of self.now) at }
    {
        if at < self.len() {
            Some(read_window(self.file, at as u16))
        } else {
            None
        }
    }
}

// The window in its own part from the middle of the file.
#[tactic(auto, unfolding(crate::specs::File::window_at))]
fn read_window(file: &[u8], at: u16) -> Window
    requires { file_length (at + 1) ≤ length file.now }
    ensures { result ≡ window_at file.now at }
{
    let place = window_place(at);
    Window::read(&file[place..place + WINDOW_LENGTH])
}

// Questions 4 to 6 of every window, window after window.
#[tactic(auto, using(refusals::proofs::Questions::window_after_window), unfolding(crate::specs::Validation::asked_with, crate::specs::Validation::offset_before))]
fn ask_windows(file: &[u8], minimum: u32, len: u16) -> Result<(), Refusal>
    requires few { len ≤ greatest_count }
    requires whole { length file.now ≡ file_length len }
    ensures { result ≡ asked_of (each (asked_with minimum file.now) 0 len) }
{
    let mut before = 0;
    for position in 0..len {
        let window = read_window(file, position);
        window.ask_at(position, minimum, before)?;
        before = window.offset;
    }
    Ok(())
}
