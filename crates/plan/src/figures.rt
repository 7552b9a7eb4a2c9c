// The figures of a plan file, each in this one place of the code.

/// How many bytes stand before the windows.
pub const HEADER_LENGTH: usize = 8;

/// Where among them the minimum handover stands.
pub const MINIMUM_PLACE: usize = 4;

/// How many bytes a window has.
pub const WINDOW_LENGTH: usize = 8;

/// The greatest number of windows.
// Scratch tables have room for as many, and a fixed length, since the library takes no memory.
pub const GREATEST_COUNT: usize = 2048;

/// The greatest minimum handover.
pub const GREATEST_MINIMUM: u32 = 86400;

/// The greatest end of a window, which 32 bits just hold. A sum of offset and length may be greater, until question 5 is passed.
pub const GREATEST_END: u64 = 4294967295;
