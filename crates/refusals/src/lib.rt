// The refusal that every call gives, and questions in turn, of which the first "no" is the answer.
#![tactic(auto)]

mod question;
mod refusal;

pub use question::{Question, ask, ask_positions};
pub use refusal::Refusal;
