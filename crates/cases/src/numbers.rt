// The numbers of a text.

// A number with a digit more, which is the lower half of the digit's byte. From 1,844,674,407,370,955,161 on it becomes the greatest
// number, even where 64 bits would hold the longer one: `parse` and `saturating_mul` answer otherwise there.
fn with_digit(number: u64, digit: u8) -> u64 {
    if number < u64::MAX / 10 {
        number * 10 + u64::from(digit % 16)
    } else {
        u64::MAX
    }
}

// The number that a word begins with, or 0. A byte less than any digit ends it, as a line's end does; every other byte is a digit, also
// those that `parse` refuses.
fn number_of(word: &[u8]) -> u64 {
    word.iter()
        .copied()
        .take_while(|byte| b'0' <= *byte)
        .fold(0, with_digit)
}

// The numbers behind the first blanks of a text; 0 for each that is missing.
pub(crate) fn numbers_of<const N: usize>(text: &[u8]) -> [u64; N] {
    let mut numbers = [0; N];
    let words = text.split(|byte| *byte == b' ').skip(1);
    for (number, word) in numbers.iter_mut().zip(words) {
        *number = number_of(word);
    }
    numbers
}
