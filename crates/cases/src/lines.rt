// The case that a line of text is.
use crate::numbers::numbers_of;
use plan::Window;

#[derive(Clone, Copy)]
pub(crate) enum Case {
    // A file of so many bytes, with so many windows and this minimum named, and its first two windows.
    File {
        bytes: usize,
        windows: u16,
        minimum: u32,
        given: [Window; 2],
    },
    // Two positions of plan 12, by their tags and by the chain between them.
    Pair {
        first: usize,
        second: usize,
    },
    // A position of plan 12, by its neighbours and its reach.
    Neighbours {
        position: usize,
    },
    // Two positions of plan 12, by the margin of their windows.
    Margin {
        first: usize,
        second: usize,
    },
    // Plan 12 with this number and a window more.
    Add {
        plan: u16,
        window: Window,
    },
    // Plan 12 with this number and a window less.
    Withdraw {
        plan: u16,
        position: usize,
    },
}

// The lower 16 bits.
fn low_16(number: u64) -> u16 {
    (number % 65536) as u16
}

// The lower 32 bits.
fn low_32(number: u64) -> u32 {
    (number % 4294967296) as u32
}

fn window_of(offset: u64, length: u64) -> Window {
    Window {
        offset: low_32(offset),
        length: low_32(length),
    }
}

fn file_case(text: &[u8]) -> Case {
    let [
        bytes,
        windows,
        minimum,
        offset,
        length,
        next_offset,
        next_length,
    ] = numbers_of::<7>(text);
    Case::File {
        bytes: bytes as usize,
        windows: low_16(windows),
        minimum: low_32(minimum),
        given: [
            window_of(offset, length),
            window_of(next_offset, next_length),
        ],
    }
}

impl Case {
    // The case that a text begins with, by its first letter; none where no case has that letter, as in a comment.
    pub(crate) fn read(text: &[u8]) -> Option<Case> {
        let [first, second, third] = numbers_of::<3>(text);
        let case = match text.first()? {
            b'f' => file_case(text),
            b'p' => Case::Pair {
                first: first as usize,
                second: second as usize,
            },
            b'w' => Case::Neighbours {
                position: first as usize,
            },
            b'm' => Case::Margin {
                first: first as usize,
                second: second as usize,
            },
            b'a' => Case::Add {
                plan: low_16(first),
                window: window_of(second, third),
            },
            b'l' => Case::Withdraw {
                plan: low_16(first),
                position: second as usize,
            },
            _ => return None,
        };
        Some(case)
    }
}
