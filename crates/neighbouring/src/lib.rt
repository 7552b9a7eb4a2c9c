// Answers from a plan: the windows that overlap one window.
#![tactic(auto)]

mod neighbourhood;
mod spans;

pub use neighbourhood::neighbours;
