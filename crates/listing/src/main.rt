// The listing of the plan file on standard input: `PLAN WINDOWS COMPONENTS`, and a row for each window with its position,
// parent, component, depth, rank and rank of the last; or `refused NUMBER POSITION`.
#![tactic(auto)]

ghost use Rattle.std.specs.Prelude.{◌≤◌, length};

mod lines;
mod rows;

use lines::{Heading, Refused};
use plan::GREATEST_COUNT;
use rows::Tables;
use std::io::{self, Read};
use tag_bytes::{Label, Tag};

// The front of a buffer, filled until the input ends or no room is left. A read that fails ends the input too, and what came before it
// counts. Of std `read_exact` does not say how much came, `read_to_end` takes memory, and `io::copy` reads on after an interruption. (It
// stands in both programs: a crate for ten lines is no plainer.)
fn read_full<'a>(from: &mut impl Read, buffer: &'a mut [u8]) -> &'a [u8]
    ensures { length result.now ≤ length buffer.old }
{
    let mut filled = 0;
    while let Ok(more @ 1..) = from.read(&mut buffer[filled..]) {
        filled += more;
    }
    &buffer[..filled]
}

// Builds the tables of a plan file, and prints them; the tags are not listed.
fn print_listing(rt: &impl Print, file: &[u8]) -> io::Result<()> {
    let mut tables = Tables::new();
    let mut tags = [0; Tag::LENGTH * GREATEST_COUNT];
    let answer = tree::build(
        file,
        &mut tables.parents,
        &mut tables.components,
        &mut tables.depths,
        &mut tables.ranks,
        &mut tables.last_ranks,
        &mut tags,
    );
    match answer {
        Ok(built) => {
            rt.println(Heading(built))?;
            tables.print_rows(rt, built.windows)
        }
        Err(refusal) => rt.println(Refused(refusal)),
    }
}

fn main(rt: HostRuntime) -> io::Result<()> {
    // One byte more than any plan, so that a file that is too long is seen to be.
    let mut buffer = [0; 16393];
    let file = read_full(&mut rt.reader(), &mut buffer);
    print_listing(&rt, file)
}
