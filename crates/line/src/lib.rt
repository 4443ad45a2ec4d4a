// The order line's two ends: loop times, the order as items, the sending end and the receiving end.
#![tactic(auto)]

ghost use Rattle.std.specs.Prelude.{◌≡◌};
ghost use Rattle.line.specs.Refusals.{refusal_number};

pub mod head;
mod hold;
pub mod loop_time;
pub mod marks;
pub mod order;
pub mod receiver;
pub mod receiving;
mod rules;
pub mod sender;
mod window;

// Why a call turns its input away, each with its number; docs/PROTOCOL.md, "What the ends turn away".
#[derive(Clone, Copy, Debug, PartialEq, Eq)]
pub enum Refusal {
    Block = 1,
    Speed = 2,
    LoopTime = 3,
    Empty = 4,
    Long = 5,
    Short = 6,
    Spoiled = 7,
    Rest = 8,
    CodeSize = 9,
}

// Each crate that refuses has such an impl: no macro of ours may write one.
impl From<Refusal> for u8 {
    ghost from_gives = { λ refusal number. number ≡ refusal_number refusal };

    fn from(refusal: Refusal) -> u8 {
        refusal as u8
    }
}
