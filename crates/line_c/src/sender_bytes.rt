// A sender in lent bytes.
ghost use Rattle.std.specs.Prelude.{◌≡◌, ◌++◌, ◌≤◌, length, drop, OnOk};
ghost use Rattle.line.specs.Sending.{opened_answer};
ghost use Rattle.line_c.specs.State.{sender_size, sender_of, sender_bytes, next_of};

use crate::layout::{
    HEAD_SIZE, MARKS_SIZE, holds_state, load_marks, load_word, store_marks, store_words,
};
use line::Refusal;
use line::sender::{Next, Sender, Setup};

pub(crate) const SENDER_SIZE: usize = HEAD_SIZE + MARKS_SIZE;

// The numbers are those of the cases in their order. A From of a number would be for the crate that has Next to write.
fn next_of(n: u8) -> Next
    ensures { result ≡ next_of n }
{
    match n {
        0 => Next::Sync,
        1 => Next::Older,
        _ => Next::Newer,
    }
}

// Bytes that hold no sender are refused as spoiled.
#[tactic(auto, unfolding(crate::specs::State::sender_of, crate::specs::State::sender_in))]
pub(crate) fn load_sender(s: &[u8]) -> Result<Sender, Refusal>
    ensures held { opened_answer result ≡ sender_of s.now }
    ensures enough { OnOk result (sender_size ≤ length s.now) }
{
    if !holds_state(SENDER_SIZE, [1, 2, 1], s) {
        return Err(Refusal::Spoiled);
    }
    Ok(Sender {
        setup: Setup {
            k: load_word(s, 0),
            length: load_word(s, 4),
            marks: load_marks(s, HEAD_SIZE),
        },
        newer: load_word(s, 8),
        run: usize::from(s[12]),
        opening: s[13] == 1,
        next: next_of(s[14]),
        finished: s[15] == 1,
    })
}

pub(crate) fn store_sender(sender: Sender, s: &mut [u8])
    requires { sender_size ≤ length s.old }
    ensures { s.new ≡ sender_bytes sender ++ drop sender_size s.old }
{
    store_words([sender.setup.k, sender.setup.length, sender.newer], s);
    s[12] = (sender.run % 256) as u8;
    s[13] = u8::from(sender.opening);
    s[14] = sender.next as u8;
    s[15] = u8::from(sender.finished);
    store_marks(s, HEAD_SIZE, sender.setup.marks);
}
