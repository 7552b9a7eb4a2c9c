// A "no" to one of the questions that are put to a call's inputs.
ghost use Rattle.std.specs.Prelude.{◌≡◌};
ghost use Rattle.refusals.specs.Question.{refusal_by, refusal_from, refusal_about};

use std::error::Error;
use std::fmt;

/// A "no" to a question: its number, which input is at fault (0 the first, 1 the second), and the position of the window being read, or 0.
// The number is no `Question`: `by` is promised for every number, and 0 stands for no refusal where `Tag::refusal` has none to give. Nor is the
// input an enum or the position an Option: `from` and `about` are promised for every number.
#[derive(Clone, Copy, Debug, PartialEq, Eq)]
pub struct Refusal {
    pub number: u8,
    pub input: u8,
    pub position: u16,
}

impl Refusal {
    /// The refusal by a question about the first input and no one window.
    pub fn by(number: u8) -> Self
        ensures { result ≡ refusal_by number }
    {
        Refusal {
            number,
            input: 0,
            position: 0,
        }
    }

    /// The same question put to another input.
    pub fn from(self, input: u8) -> Self
        ensures { result ≡ refusal_from input self }
    {
        Refusal { input, ..self }
    }

    /// The same question about the window at a position.
    pub fn about(self, position: u16) -> Self
        ensures { result ≡ refusal_about position self }
    {
        Refusal { position, ..self }
    }
}

impl fmt::Display for Refusal {
    fn fmt<W: fmt::Write>(&self, f: &mut fmt::Formatter<W>) -> fmt::Result {
        write!(
            f,
            "refused by question {}: input {}, position {}",
            self.number, self.input, self.position
        )
    }
}

impl Error for Refusal {}
