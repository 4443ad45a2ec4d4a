// The receiving end's calls, the receiver in lent bytes.
ghost use Rattle.std.specs.Prelude.{◌≡◌, ℕ, None, Some};
ghost use Rattle.line.specs.Receiving.{opening_answer, received_answer};
ghost use Rattle.line_c.specs.BlockCalls.{refusal};
ghost use Rattle.line_c.specs.ReceiverCalls.{OpenReceiverCall, event_number, event_length, event_remainder, report_number, report_used, report_length, report_remainder, ReceiveCall, ReturnBitCall};

use crate::answer::answer_number;
use crate::layout::HEAD_SIZE;
use crate::receiver_bytes::{ARRAY_END, RECEIVER_SIZE, load_head, put_head, store_receiver};
use line::Refusal;
use line::receiver::Receiver;
use line::receiving::{Event, Received};

// The events' numbers, the C interface's.
pub const NONE: u8 = 64;

pub const SYNC: u8 = 65;

pub const BAD: u8 = 66;

pub const ACCEPTED: u8 = 67;

pub const PREVIOUS: u8 = 68;

pub const SEQUENCE_ALARM: u8 = 69;

pub const LENGTH_ALARM: u8 = 70;

pub const ENDED: u8 = 71;

pub const WAIT: u8 = 72;

// What order_line_return_bit returns where it is not refused; the C interface's numbers.
pub const RETURN_0: u8 = 96;

pub const RETURN_1: u8 = 97;

// A receiver into lent bytes.
#[tactic(auto, unfolding(crate::specs::ReceiverCalls::open_receiver_in))]
fn open_receiver(k: usize, size: Option<usize>, state: &mut [u8]) -> Result<(), Refusal>
    ensures { OpenReceiverCall k size state.old (refusal (opening_answer result)) state.new }
{
    let opened = Receiver::open(k, size);
    opened.answer?;
    if state.len() < RECEIVER_SIZE {
        return Err(Refusal::Short);
    }
    store_receiver(opened.state, state);
    Ok(())
}

// Without marks.
#[unsafe(no_mangle)]
pub extern "C" fn order_line_open_receiver(k: usize, state: &mut [u8]) -> u8
    ensures { OpenReceiverCall k None state.old result state.new }
{
    answer_number(open_receiver(k, None, state))
}

#[unsafe(no_mangle)]
pub extern "C" fn order_line_open_receiver_with_marks(k: usize, size: usize, state: &mut [u8]) -> u8
    ensures { OpenReceiverCall k (Some size) state.old result state.new }
{
    answer_number(open_receiver(k, Some(size), state))
}

// A From would be for the crate that has Event to write, and the numbers are the C interface's.
fn number_of(event: Event) -> u8
    ensures { result ≡ event_number event }
{
    match event {
        Event::None => NONE,
        Event::Sync => SYNC,
        Event::Bad(_) => BAD,
        Event::Accepted => ACCEPTED,
        Event::Previous => PREVIOUS,
        Event::SequenceAlarm => SEQUENCE_ALARM,
        Event::LengthAlarm => LENGTH_ALARM,
        Event::Ended(_) => ENDED,
        Event::Wait => WAIT,
    }
}

// An event's number; the remainder that comes with a bad event is written, and the length that comes with the end.
fn report(event: Event, length: &mut usize, remainder: &mut u16) -> u8
    ensures { (result ≡ event_number event) × (length.new ≡ event_length length.old event) × (remainder.new ≡ event_remainder remainder.old event) }
{
    match event {
        Event::Bad(found) => *remainder = found,
        Event::Ended(bits) => *length = bits,
        _ => {}
    }
    number_of(event)
}

// A receiving call on the receiver that the bytes hold.
fn receive(
    state: &mut [u8],
    line: &[u8],
    bits: usize,
    ready: bool,
    store: &mut [u8],
) -> Result<Received, Refusal>
    ensures { (used len remainder : ℕ) → ReceiveCall state.old line.now bits ready store.old used len remainder (report_number (received_answer result)) state.new store.new (report_used used (received_answer result)) (report_length len (received_answer result)) (report_remainder remainder (received_answer result)) }
{
    let head = load_head(state)?;
    let step = head.receive(&mut state[HEAD_SIZE..ARRAY_END], line, bits, ready, store);
    let received = step.answer?;
    put_head(step.head, state);
    Ok(received)
}

#[unsafe(no_mangle)]
pub extern "C" fn order_line_receive(
    state: &mut [u8],
    line: &[u8],
    bits: usize,
    ready: bool,
    store: &mut [u8],
    used: &mut usize,
    length: &mut usize,
    remainder: &mut u16,
) -> u8
    ensures { ReceiveCall state.old line.now bits ready store.old used.old length.old remainder.old result state.new store.new used.new length.new remainder.new }
{
    match receive(state, line, bits, ready, store) {
        Ok(received) => {
            *used = received.bits;
            report(received.event, length, remainder)
        }
        Err(refusal) => u8::from(refusal),
    }
}

#[unsafe(no_mangle)]
pub extern "C" fn order_line_return_bit(state: &[u8]) -> u8
    ensures { ReturnBitCall state.now result }
{
    let head = match load_head(state) {
        Ok(head) => head,
        Err(refusal) => return u8::from(refusal),
    };
    if !head.in_range() {
        return u8::from(Refusal::Spoiled);
    }
    if head.back { RETURN_1 } else { RETURN_0 }
}
