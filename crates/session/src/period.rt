// One period of a session over both ends, and what a line of the output says of it.
ghost use Rattle.std.specs.Prelude.{◌≡◌, ◌<◌, length, take};
ghost use Rattle.crc.specs.Bits.{bits_of};
ghost use Rattle.line.specs.Sending.{sent_block};
ghost use Rattle.session.specs.Period as P;
ghost use Rattle.session.specs.Period.{Lent, answer_of, heard_told, ran, reading_of, arriving, disturbed, last_event, as_shown, line_of, heard_result, RunPeriod};

use crate::shift::drop_bits;
use block::OVERHEAD;
use line::Refusal;
use line::receiver::Receiver;
use line::receiving::Event;
use line::sender::{Sender, Sent};

// The run program's machine is always ready.
const READY: bool = true;

// A line of the input: t, f, d.
#[derive(Clone, Copy)]
pub enum Kind {
    Undisturbed,
    // The reading is turned over.
    Turned,
    // The block's first bit is inverted.
    Damaged,
}

#[derive(Clone, Copy)]
pub struct Ends {
    pub sender: Sender,
    pub receiver: Receiver,
}

// The block sent, as it is shown: no Option, since a synchronising block is sent too.
#[derive(Clone, Copy)]
pub enum Block {
    Synchronising,
    Item {
        number: usize,
        end: bool,
        cancelled: bool,
    },
}

// What a line shows of the sending call.
#[derive(Clone, Copy)]
pub struct Shown {
    pub block: Block,
    // None where the sender did not use it.
    pub reading: Option<bool>,
}

#[derive(Clone, Copy)]
pub struct Line {
    pub sent: Shown,
    // The period's last event other than none, else none.
    pub event: Event,
    // The return bit afterwards.
    pub back: bool,
}

pub type Outcome = Result<Line, Refusal>;

// How the receiving calls of a period ended: the last event other than none, or a refusal.
#[derive(Clone, Copy)]
pub struct Heard {
    pub receiver: Receiver,
    pub last: Result<Event, Refusal>,
}

#[derive(Clone, Copy)]
pub struct Period {
    pub ends: Ends,
    pub outcome: Outcome,
}

fn reading_of(kind: Kind, back: bool) -> bool
    ensures { result ≡ reading_of kind back }
{
    match kind {
        Kind::Turned => !back,
        Kind::Undisturbed | Kind::Damaged => back,
    }
}

fn last_event(last: Event, event: Event) -> Event
    ensures { result ≡ last_event last event }
{
    match event {
        Event::None => last,
        _ => event,
    }
}

fn as_shown(sent: Sent, reading: bool) -> Shown
    ensures { result ≡ as_shown (sent_block sent) reading }
{
    match sent {
        Sent::Synchronising => Shown {
            block: Block::Synchronising,
            reading: None,
        },
        Sent::Item {
            number,
            end,
            used,
            cancelled,
        } => Shown {
            block: Block::Item {
                number,
                end,
                cancelled,
            },
            reading: used.then_some(reading),
        },
    }
}

// Lends the bits not yet used until none is left or a call is refused.
fn hear(receiver: Receiver, line: &mut [u8], count: usize, store: &mut [u8]) -> Heard
    requires { Lent line.old count }
    ensures { heard_told result store.new ≡ P.hear count receiver (take count (bits_of line.old)) store.old Event.None }
{
    let mut state = receiver;
    // Counted down by the bits that each call used, which no range knows.
    let mut left = count;
    let mut last = Event::None;
    while 0 < left {
        let step = state.receive(line, left, READY, store);
        state = step.state;
        match step.answer {
            Ok(received) => {
                last = last_event(last, received.event);
                drop_bits(line, received.bits);
                left -= received.bits;
            }
            Err(refusal) => {
                return Heard {
                    receiver: state,
                    last: Err(refusal),
                };
            }
        }
    }
    Heard {
        receiver: state,
        last: Ok(last),
    }
}

// The line's damage.
fn disturb(kind: Kind, line: &mut [u8])
    requires { 0 < length line.old }
    ensures { line.new ≡ disturbed kind line.old }
{
    if matches!(kind, Kind::Damaged) {
        line[0] ^= 128;
    }
}

fn outcome_of(sent: Shown, back: bool, last: Result<Event, Refusal>) -> Outcome
    ensures { answer_of result ≡ line_of sent back (answer_of last) }
{
    Ok(Line {
        sent,
        event: last?,
        back,
    })
}

// The period from the block sent on.
fn heard_period(
    kind: Kind,
    ends: Ends,
    sent: Shown,
    line: &mut [u8],
    count: usize,
    store: &mut [u8],
) -> Period
    requires { Lent line.old count × (0 < count) }
    ensures { ran result store.new ≡ heard_result ends.sender sent (P.hear count ends.receiver (arriving kind (take count (bits_of line.old))) store.old Event.None) }
{
    disturb(kind, line);
    let heard = hear(ends.receiver, line, count, store);
    Period {
        ends: Ends {
            receiver: heard.receiver,
            ..ends
        },
        outcome: outcome_of(sent, heard.receiver.back, heard.last),
    }
}

// A sending call, and receiving calls until the block's bits are used or a call is refused.
pub fn run_period(kind: Kind, ends: Ends, order: &[u8], store: &mut [u8]) -> Period
    ensures { RunPeriod kind ends.sender ends.receiver order.now store.old result store.new }
{
    let reading = reading_of(kind, ends.receiver.back);
    let mut line = [0u8; 483];
    let step = ends.sender.send(order, reading, &mut line);
    let after = Ends {
        sender: step.state,
        ..ends
    };
    match step.answer {
        Ok(sent) => {
            let count = ends.sender.setup.k + OVERHEAD;
            heard_period(
                kind,
                after,
                as_shown(sent, reading),
                &mut line,
                count,
                store,
            )
        }
        Err(refusal) => Period {
            ends: after,
            outcome: Err(refusal),
        },
    }
}
