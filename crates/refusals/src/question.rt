// The questions that are put to a call's inputs, by their names.
ghost use Rattle.std.specs.Prelude.{◌≡◌, [], ◌∷◌};
ghost use Rattle.refusals.specs.Numbers.{number_of};
ghost use Rattle.refusals.specs.Question.{question, refusal_by, position_questions, asked_of};

use crate::refusal::Refusal;

/// The questions at the door, each with the number that a refusal by it has.
#[derive(Clone, Copy, Debug, PartialEq, Eq)]
pub enum Question {
    HasHeader = 1,
    HasFewWindows = 2,
    HasItsLength = 3,
    IsLongEnough = 4,
    EndsInTime = 5,
    IsInOrder = 6,
    IsThere = 7,
    HasRoom = 8,
    HasItsBytes = 9,
    HasSmallFields = 10,
    HasOnePlan = 11,
    Agrees = 12,
    EndsInOrder = 13,
    HasMinimum = 14,
    HasPlace = 15,
    HasNewNumber = 16,
}

impl Question {
    pub fn number(self) -> u8
        ensures { result ≡ number_of self }
    {
        self as u8
    }
}

// A call of its own, so that whoever asks many in turn keeps a branch for each and forms no refusal before one is given: a validation has two
// instructions less for each window, and a page's record thirteen.
#[inline(never)]
fn refused(which: Question) -> Refusal
    ensures { result ≡ refusal_by (number_of which) }
{
    Refusal::by(which.number())
}

/// Asks one question: the refusal by it where the answer is "no".
pub fn ask(which: Question, yes: bool) -> Result<(), Refusal>
    ensures { result ≡ asked_of (question (number_of which) yes ∷ []) }
{
    if yes { Ok(()) } else { Err(refused(which)) }
}

/// Question 7 of two named positions.
pub fn ask_positions(first: usize, second: usize, windows: usize) -> Result<(), Refusal>
    ensures { result ≡ asked_of (position_questions first second windows) }
{
    ask(Question::IsThere, first < windows)?;
    ask(Question::IsThere, second < windows).map_err(|refusal| refusal.from(1))
}
