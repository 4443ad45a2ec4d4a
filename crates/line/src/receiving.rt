// What both forms of the receiving end are made of: the phase, what opening fixes, the bits lent, the events and the answer.
ghost use Rattle.std.specs.Prelude.{◌*◌, ◌≤◌, length};

use crate::marks::Marks;

// The bytes of the array that holds one unfinished block.
pub const ARRAY_SIZE: usize = 483;

#[derive(Clone, Copy, Debug, PartialEq, Eq)]
pub enum Phase {
    Search,
    InStep,
    SequenceAlarm,
    LengthAlarm,
}

// What opening fixes: the data bits of a block and the marks.
#[derive(Clone, Copy)]
pub struct Setup {
    pub k: usize,
    pub marks: Marks,
}

// The first bits of a line's bytes.
#[derive(Clone, Copy)]
pub(crate) struct Line<'a> {
    pub bytes: &'a [u8],
    pub bits: usize,
    ghost held: { bits ≤ 8 * length bytes.now },
}

#[derive(Clone, Copy, Debug, PartialEq, Eq)]
pub enum Event {
    // All bits were used without one: an event of its own, since `order_line_receive` answers it with a number.
    None,
    Sync,
    // With the remainder of the block's bits; 0 where the check passes and the block fits nowhere, as `BadRemainder` says and
    // `order_line_receive` writes it.
    Bad(u16),
    Accepted,
    Previous,
    SequenceAlarm,
    LengthAlarm,
    // With the order's length in bits.
    Ended(usize),
    // The machine is not ready for a block that would be accepted or ended.
    Wait,
}

// What a call read: the event, and the number of bits used.
#[derive(Clone, Copy, Debug, PartialEq, Eq)]
pub struct Received {
    pub event: Event,
    pub bits: usize,
}
