// Loop times: the table of the longest loop, by block length and speed, and the loop-time test.
ghost use Rattle.std.specs.Prelude.{◌≡◌, ◌<◌, get_or};
ghost use Rattle.block.specs.Lengths.{lengths};
ghost use Rattle.line.specs.Code.Table.{entry};
ghost use Rattle.line.specs.LoopTime.{speeds, is_speed, LoopTest};

use crate::Refusal;

// The table's rows and columns.
const LENGTHS: [usize; 4] = [240, 480, 960, 3840];

const SPEEDS: [u32; 6] = [200, 600, 1200, 2400, 3600, 4800];

// The longest loop in milliseconds, rounded down: a row for each block length, a column for each speed. Two tables, and no
// Option in a cell: a rule of the project keeps the numbers apart from the mark of the cells that have an entry.
const LIMIT: [[u32; 6]; 4] = [
    [1210, 343, 126, 18, 0, 0],
    [2410, 743, 326, 118, 48, 14],
    [4810, 1543, 726, 318, 182, 114],
    [19210, 6343, 3126, 1518, 982, 714],
];

const ENTRY: [[bool; 6]; 4] = [
    [true, true, true, true, false, false],
    [true, true, true, true, true, true],
    [true, true, true, true, true, true],
    [true, true, true, true, true, true],
];

// Whether a speed is one of the table's.
pub fn is_speed(speed: u32) -> bool
    ensures { result ≡ is_speed speed }
{
    SPEEDS.contains(&speed)
}

// The table's entry, if it has one.
fn longest_loop(row: usize, column: usize) -> Option<u32>
    requires { (row < 4) × (column < 6) }
    ensures { result ≡ entry (get_or lengths row 0) (get_or speeds column 0) }
{
    if ENTRY[row][column] {
        Some(LIMIT[row][column])
    } else {
        None
    }
}

// The loop-time test.
pub fn loop_time(k: usize, speed: u32, loop_ms: u32) -> Result<(), Refusal>
    ensures { LoopTest k speed loop_ms result }
{
    let row = LENGTHS
        .iter()
        .position(|length| *length == k)
        .ok_or(Refusal::Block)?;
    let column = SPEEDS
        .iter()
        .position(|listed| *listed == speed)
        .ok_or(Refusal::Speed)?;
    match longest_loop(row, column) {
        Some(limit) if loop_ms <= limit => Ok(()),
        _ => Err(Refusal::LoopTime),
    }
}
