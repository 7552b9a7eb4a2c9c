// Answers and tables as they are printed, each behind a colon.
use std::fmt;

// An answer as it crosses into C, 16 bits each: its kind and its three numbers.
#[derive(Clone, Copy, Debug, PartialEq, Eq)]
pub(crate) struct Answer(pub(crate) u64);

impl fmt::Display for Answer {
    fn fmt<W: fmt::Write>(&self, f: &mut fmt::Formatter<W>) -> fmt::Result {
        write!(
            f,
            ": {} {} {} {}",
            self.0 % 65536,
            (self.0 >> 16) % 65536,
            (self.0 >> 32) % 65536,
            self.0 >> 48
        )
    }
}

// A table of five numbers.
#[derive(Clone, Copy, Debug, PartialEq, Eq)]
pub(crate) struct Table(pub(crate) [u16; 5]);

impl fmt::Display for Table {
    fn fmt<W: fmt::Write>(&self, f: &mut fmt::Formatter<W>) -> fmt::Result {
        let [first, second, third, fourth, fifth] = self.0;
        write!(f, ": {first} {second} {third} {fourth} {fifth}")
    }
}
