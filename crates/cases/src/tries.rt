// The calls that a case is put to.
use crate::answers::{Answer, Table};
use crate::files::{plan_12, write_plan};
use crate::lines::Case;
use plan::{GREATEST_COUNT, HEADER_LENGTH, WINDOW_LENGTH, Window};
use poddreshi::{
    poddreshi_add, poddreshi_chain, poddreshi_margin, poddreshi_neighbours, poddreshi_reach,
    poddreshi_short_tags, poddreshi_tags, poddreshi_withdraw,
};
use poddreshi_reader::poddreshi_pair_at;
use std::io;
use tag_bytes::{Label, Tag};

// One byte more than any plan, so that a file that is too long is among the cases.
const BUFFER_LENGTH: usize = HEADER_LENGTH + WINDOW_LENGTH * GREATEST_COUNT + 1;

// The build of a file, its short tags, and the chain between two positions in it.
fn try_plan(rt: &impl Print, file: &[u8], first: usize, second: usize) -> io::Result<()> {
    let mut tags = [0; Tag::LENGTH * GREATEST_COUNT];
    rt.print(Answer(poddreshi_tags(file, &mut tags)))?;
    rt.print(Answer(poddreshi_short_tags(file, &mut tags)))?;
    let mut out = [9; 5];
    rt.print(Answer(poddreshi_chain(file, first, second, &mut out)))?;
    rt.print(Table(out))
}

// Two positions, by the margin of their windows, which was 9 before.
fn try_margin(rt: &impl Print, file: &[u8], first: usize, second: usize) -> io::Result<()> {
    let mut margin = 9;
    rt.print(Answer(poddreshi_margin(file, first, second, &mut margin)))?;
    print!(rt; ": {margin}")
}

// A file is a buffer's front, so that one buffer serves for every number of bytes.
fn try_file(
    rt: &impl Print,
    bytes: usize,
    windows: u16,
    minimum: u32,
    given: &[Window],
) -> io::Result<()> {
    let mut buffer = [0; BUFFER_LENGTH];
    write_plan(&mut buffer, windows, minimum, given);
    let Some(file) = buffer.get(..bytes) else {
        return Ok(());
    };
    try_plan(rt, file, 0, 1)?;
    try_margin(rt, file, 0, 1)
}

// Two positions, by their tags and by the chain between them.
fn try_pair(rt: &impl Print, file: &[u8], first: usize, second: usize) -> io::Result<()> {
    let mut tags = [0; Tag::LENGTH * 7];
    poddreshi_tags(file, &mut tags);
    rt.print(Answer(poddreshi_pair_at(&tags, first, second)))?;
    try_plan(rt, file, first, second)
}

// One position, by its neighbours and its reach.
fn try_neighbours(rt: &impl Print, file: &[u8], position: usize) -> io::Result<()> {
    let mut out = [9; 5];
    rt.print(Answer(poddreshi_neighbours(file, position, &mut out)))?;
    rt.print(Table(out))?;
    rt.print(Answer(poddreshi_reach(file, position)))
}

// A window more, in buffers for eight windows, and the reach of the changed plan's first window. What was not written is no plan.
fn try_add(rt: &impl Print, file: &[u8], plan: u16, window: Window) -> io::Result<()> {
    let Window { offset, length } = window;
    let mut changed = [0; HEADER_LENGTH + WINDOW_LENGTH * 8];
    let mut tags = [0; Tag::LENGTH * 8];
    let answer = poddreshi_add(file, plan, offset, length, &mut changed, &mut tags);
    rt.print(Answer(answer))?;
    rt.print(Answer(poddreshi_reach(&changed, 0)))
}

// A window less, in buffers for six.
fn try_withdraw(rt: &impl Print, file: &[u8], plan: u16, position: usize) -> io::Result<()> {
    let mut changed = [0; HEADER_LENGTH + WINDOW_LENGTH * 6];
    let mut tags = [0; Tag::LENGTH * 6];
    let answer = poddreshi_withdraw(file, plan, position, &mut changed, &mut tags);
    rt.print(Answer(answer))?;
    rt.print(Answer(poddreshi_reach(&changed, 0)))
}

impl Case {
    // Prints what the case's calls answer.
    pub(crate) fn try_calls(self, rt: &impl Print) -> io::Result<()> {
        match self {
            Case::File {
                bytes,
                windows,
                minimum,
                given,
            } => try_file(rt, bytes, windows, minimum, &given),
            Case::Pair { first, second } => try_pair(rt, &plan_12(), first, second),
            Case::Neighbours { position } => try_neighbours(rt, &plan_12(), position),
            Case::Margin { first, second } => try_margin(rt, &plan_12(), first, second),
            Case::Add { plan, window } => try_add(rt, &plan_12(), plan, window),
            Case::Withdraw { plan, position } => try_withdraw(rt, &plan_12(), plan, position),
        }
    }
}
