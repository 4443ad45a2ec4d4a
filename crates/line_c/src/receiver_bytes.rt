// A receiver in lent bytes.
ghost use Rattle.std.specs.Prelude.{OnOk, ◌≡◌, [], ◌++◌, ◌≤◌, length, take, drop};
ghost use Rattle.line.specs.Receiving.{array_bytes};
ghost use Rattle.line.specs.ReceivingInPlace.{with_array};
ghost use Rattle.line_c.specs.State.{head_size, head_answer, array_end, receiver_size, receiver_of, receiver_head, receiver_bytes, phase_of};

use crate::layout::{
    HEAD_SIZE, MARKS_SIZE, holds_state, load_marks, load_word, store_marks, store_words,
};
use line::Refusal;
use line::head::Head;
use line::receiver::Receiver;
use line::receiving::{ARRAY_SIZE, Phase, Setup};

// Behind the array stand the marks.
pub(crate) const ARRAY_END: usize = HEAD_SIZE + ARRAY_SIZE;

pub(crate) const RECEIVER_SIZE: usize = ARRAY_END + MARKS_SIZE;

// The numbers are those of the cases in their order. A From of a number would be for the crate that has Phase to write.
fn phase_of(n: u8) -> Phase
    ensures { result ≡ phase_of n }
{
    match n {
        0 => Phase::Search,
        1 => Phase::InStep,
        2 => Phase::SequenceAlarm,
        _ => Phase::LengthAlarm,
    }
}

// The state but for its array. Bytes that hold no receiver are refused as spoiled.
#[tactic(auto, unfolding(crate::specs::State::receiver_of, crate::specs::State::receiver_in))]
pub(crate) fn load_head(s: &[u8]) -> Result<Head, Refusal>
    ensures held { head_answer s.now result ≡ receiver_of s.now }
    ensures enough { OnOk result (receiver_size ≤ length s.now) }
{
    if !holds_state(RECEIVER_SIZE, [1, 1, 3], s) {
        return Err(Refusal::Spoiled);
    }
    Ok(Head {
        setup: Setup {
            k: load_word(s, 0),
            marks: load_marks(s, ARRAY_END),
        },
        held: load_word(s, 4),
        bad_row: usize::from(s[12]),
        back: s[13] == 1,
        taken: load_word(s, 8),
        ended: s[14] == 1,
        phase: phase_of(s[15]),
    })
}

// The array and the marks stay as they are.
#[tactic(auto, using(crate::proofs::Flags::from_bool_flag, crate::proofs::Places::head_stored))]
pub(crate) fn put_head(head: Head, s: &mut [u8])
    requires { head_size ≤ length s.old }
    ensures { s.new ≡ receiver_head (with_array head []) ++ drop head_size s.old }
{
    store_words([head.setup.k, head.held, head.taken], s);
    s[12] = (head.bad_row % 256) as u8;
    s[13] = u8::from(head.back);
    s[14] = u8::from(head.ended);
    s[15] = head.phase as u8;
}

pub(crate) fn store_receiver(receiver: Receiver, s: &mut [u8])
    requires { receiver_size ≤ length s.old }
    ensures { s.new ≡ receiver_bytes receiver ++ drop receiver_size s.old }
{
    put_head(receiver.head(), s);
    s[HEAD_SIZE..ARRAY_END].copy_from_slice(&receiver.bits);
    store_marks(s, ARRAY_END, receiver.setup.marks);
}
