// Cases that are not among those to be proved: a line of standard input for each, which is printed again with the answers of the
// library's calls behind it, as they cross into C. A line that is no case is printed as it is.
//   file BYTES WINDOWS MINIMUM OFFSET LENGTH OFFSET LENGTH
//       a file of so many bytes, with so many windows and this minimum named, and the first two windows; its build, its short tags, and
//       the chain between positions 0 and 1 with its table
//   pair FIRST SECOND
//       two positions of plan 12; their tags' pair, the build, the short tags, and the chain with its table
//   window POSITION
//       one position of plan 12; its neighbours with their table, and its reach
//   margin FIRST SECOND
//       two positions of plan 12; the margin of their windows, which was 9 before
//   add NUMBER OFFSET LENGTH
//       plan 12 with this number and a window more, and the reach of the changed plan's first window, where it was written
//   less NUMBER POSITION
//       plan 12 with this number and a window less, and the same
// An answer is its kind and three numbers. 0: refused; 2: built; 3: reach; 4: chain; 5: no chain; 6: neighbours; 9: handovers;
// 13: margin.
#![tactic(auto)]

ghost use Rattle.std.specs.Prelude.{◌≤◌, length};

mod answers;
mod files;
mod lines;
mod numbers;
mod tries;

use lines::Case;
use std::io::{self, Read, Write};

// Prints each line, and before its end what its case's calls answer. A case is read from all that is left of the text, since a line with
// too few numbers takes those of the lines behind it. What stands behind the last line's end is no case.
fn try_lines(rt: &impl Print, text: &[u8]) -> io::Result<()> {
    let mut out = io::writer(rt);
    let mut rest = text;
    while let Some(end) = rest.iter().position(|byte| *byte == b'\n') {
        out.write_all(&rest[..end])?;
        if let Some(case) = Case::read(rest) {
            case.try_calls(rt)?;
        }
        out.write_all(b"\n")?;
        rest = &rest[end + 1..];
    }
    out.write_all(rest)
}

// The front of a buffer, filled until the input ends or no room is left. A read that fails ends the input too, and what came before it
// counts. Of std `read_exact` does not say how much came, `read_to_end` takes memory, and `io::copy` reads on after an interruption. (It
// stands in both programs: a crate for ten lines is no plainer.)
fn read_full<'a>(from: &mut impl Read, buffer: &'a mut [u8]) -> &'a [u8]
    ensures { length result.now ≤ length buffer.old }
{
    let mut filled = 0;
    while let Ok(more @ 1..) = from.read(&mut buffer[filled..]) {
        filled += more;
    }
    &buffer[..filled]
}

fn main(rt: HostRuntime) -> io::Result<()> {
    // What stands behind so many bytes is not read.
    let mut buffer = [0; 4096];
    let text = read_full(&mut rt.reader(), &mut buffer);
    try_lines(&rt, text)
}
