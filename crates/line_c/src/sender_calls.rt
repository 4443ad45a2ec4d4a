// The sending end's calls, the sender in lent bytes.
ghost use Rattle.std.specs.Prelude.{◌≡◌, ◌≤◌, None, Some, IfOk};
ghost use Rattle.block.specs.Answer.{done};
ghost use Rattle.line.specs.Receiving.{opening_answer};
ghost use Rattle.line.specs.Sending.{sent_block, sent_answer};
ghost use Rattle.line_c.specs.BlockCalls.{refusal};
ghost use Rattle.line_c.specs.SenderCalls.{OpenSenderCall, flag_word, number_fits, sent_word, SendCall, SenderRestCall};

use crate::answer::answer_number;
use crate::sender_bytes::{SENDER_SIZE, load_sender, store_sender};
use line::Refusal;
use line::sender::{Sender, Sent};

// A sender into lent bytes.
#[tactic(auto, unfolding(crate::specs::SenderCalls::open_sender_in))]
fn open_sender(
    k: usize,
    speed: u32,
    loop_ms: u32,
    length: usize,
    size: Option<usize>,
    order: &[u8],
    state: &mut [u8],
) -> Result<(), Refusal>
    ensures { OpenSenderCall k speed loop_ms length size order.now state.old (refusal (opening_answer result)) state.new }
{
    let sender = Sender::open(k, speed, loop_ms, length, size, order)?;
    if state.len() < SENDER_SIZE {
        return Err(Refusal::Short);
    }
    store_sender(sender, state);
    Ok(())
}

// Without marks.
#[unsafe(no_mangle)]
pub extern "C" fn order_line_open_sender(
    k: usize,
    speed: u32,
    loop_ms: u32,
    length: usize,
    order: &[u8],
    state: &mut [u8],
) -> u8
    ensures { OpenSenderCall k speed loop_ms length None order.now state.old result state.new }
{
    answer_number(open_sender(k, speed, loop_ms, length, None, order, state))
}

#[unsafe(no_mangle)]
pub extern "C" fn order_line_open_sender_with_marks(
    k: usize,
    speed: u32,
    loop_ms: u32,
    length: usize,
    size: usize,
    order: &[u8],
    state: &mut [u8],
) -> u8
    ensures { OpenSenderCall k speed loop_ms length (Some size) order.now state.old result state.new }
{
    answer_number(open_sender(k, speed, loop_ms, length, Some(size), order, state))
}

// What a sending call returns where it is not refused: SENT, with the flags of the block and an item's number times
// NUMBER. The C interface's numbers.
pub const SENT: u32 = 0x100;

pub const ITEM: u32 = 0x200;

pub const END: u32 = 0x400;

pub const USED: u32 = 0x800;

pub const CANCELLED: u32 = 0x1000;

pub const NUMBER: u32 = 0x10000;

// What order_line_sender_rest returns where it is not refused; the C interface's numbers.
pub const GOING_ON: u8 = 80;

pub const FINISHED: u8 = 81;

pub const GAVE_UP: u8 = 82;

// A flag where a truth value holds.
pub(crate) fn flag(set: bool, value: u32) -> u32
    ensures { (result ≡ flag_word set value) × (result ≤ value) }
{
    if set { value } else { 0 }
}

// A block's word.
fn sent_word(sent: Sent) -> u32
    requires { number_fits sent }
    ensures { result ≡ sent_word (done (sent_block sent)) }
{
    match sent {
        Sent::Synchronising => SENT,
        Sent::Item {
            number,
            end,
            used,
            cancelled,
        } => {
            SENT + ITEM
                + flag(end, END)
                + flag(used, USED)
                + flag(cancelled, CANCELLED)
                + number as u32 * NUMBER
        }
    }
}

// A sending call on the sender that the bytes hold.
fn send(state: &mut [u8], order: &[u8], reading: bool, block: &mut [u8]) -> Result<Sent, Refusal>
    ensures call { SendCall state.old order.now reading block.old (sent_word (sent_answer result)) state.new block.new }
    ensures number { IfOk result number_fits }
{
    let step = load_sender(state)?.send(order, reading, block);
    let sent = step.answer?;
    store_sender(step.state, state);
    Ok(sent)
}

#[unsafe(no_mangle)]
pub extern "C" fn order_line_send(
    state: &mut [u8],
    order: &[u8],
    reading: bool,
    block: &mut [u8],
) -> u32
    ensures { SendCall state.old order.now reading block.old result state.new block.new }
{
    match send(state, order, reading, block) {
        Ok(sent) => sent_word(sent),
        Err(refusal) => u32::from(u8::from(refusal)),
    }
}

// A sending call with nothing lent is refused as spoiled or at rest, or else the sender goes on.
#[unsafe(no_mangle)]
pub extern "C" fn order_line_sender_rest(state: &[u8]) -> u8
    ensures { SenderRestCall state.now result }
{
    let sender = match load_sender(state) {
        Ok(sender) => sender,
        Err(refusal) => return u8::from(refusal),
    };
    let Err(refusal) = sender.send(&state[..0], false, &mut [0]).answer else {
        return GOING_ON;
    };
    match refusal {
        Refusal::Spoiled => u8::from(refusal),
        Refusal::Rest if sender.finished => FINISHED,
        Refusal::Rest => GAVE_UP,
        _ => GOING_ON,
    }
}
