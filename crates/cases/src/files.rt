// Plan files to try the calls on.
use plan::{GREATEST_COUNT, Window};

// A window of a staircase, in which each overlaps the one before it and the one behind it, and no other.
fn stair(position: u16) -> Window {
    Window {
        offset: u32::from(position),
        length: 2,
    }
}

// A plan that names so many windows and this minimum. It has the windows given and behind them, as far as there is room, a staircase.
pub(crate) fn write_plan(file: &mut [u8], windows: u16, minimum: u32, given: &[Window]) {
    plan::write_header(12, windows, minimum, file);
    for position in 0..GREATEST_COUNT as u16 {
        let window = given
            .get(usize::from(position))
            .copied()
            .unwrap_or(stair(position));
        window.write(file, plan::window_place(position));
    }
}

// Plan 12, which has seven windows and a minimum of 1.
pub(crate) fn plan_12() -> [u8; 64] {
    let mut file = [0; 64];
    let windows = [(0, 10), (2, 3), (4, 12), (9, 2), (12, 6), (17, 1), (18, 4)];
    let windows = windows.map(|(offset, length)| Window { offset, length });
    write_plan(&mut file, 7, 1, &windows);
    file
}
