// The receiving end.
ghost use Rattle.std.specs.Prelude.{◌≡◌, cond, Ok, Err};
ghost use Rattle.block.specs.Lengths.{is_length};
ghost use Rattle.line.specs.Marks.{marks_of, marks_in_range};
ghost use Rattle.line.specs.Receiving.{OpenReceiver, fresh_receiver, Receive};
ghost use Rattle.line.specs.ReceivingInPlace.{with_array};

use crate::Refusal;
use crate::head::Head;
use crate::marks::Marks;
use crate::receiving::{ARRAY_SIZE, Phase, Received, Setup};

// A head's fields with the array among them, passed by value: a rule of the project, as is the array with a count of the bits
// held beside it.
#[derive(Clone, Copy)]
pub struct Receiver {
    pub setup: Setup,
    // The bits of one unfinished block.
    pub bits: [u8; ARRAY_SIZE],
    pub held: usize,
    // How many bad blocks came in a row.
    pub bad_row: usize,
    // The return bit.
    pub back: bool,
    // The items taken.
    pub taken: usize,
    // The end was taken.
    pub ended: bool,
    pub phase: Phase,
}

// As a sender's step, and not generic: theorems name each.
#[derive(Clone, Copy)]
pub struct Step {
    pub state: Receiver,
    pub answer: Result<Received, Refusal>,
}

// A refused opening hands back a state that every step refuses: its k is 0.
#[derive(Clone, Copy)]
pub struct Opened {
    pub state: Receiver,
    pub answer: Result<(), Refusal>,
}

impl Receiver {
    // In search, with return bit 1.
    #[tactic(auto, unfolding(crate::specs::Receiving::fresh_receiver, crate::specs::Receiving::zero_array))]
    fn fresh(k: usize, marks: Marks) -> Receiver
        ensures { result ≡ fresh_receiver k marks }
    {
        Receiver {
            setup: Setup { k, marks },
            bits: [0u8; 483],
            held: 0,
            bad_row: 0,
            back: true,
            taken: 0,
            ended: false,
            phase: Phase::Search,
        }
    }

    // Of blocks of k data bits.
    fn opened(k: usize, size: Option<usize>) -> Result<Receiver, Refusal>
        ensures { result ≡ cond (is_length k) (cond (marks_in_range (marks_of size)) (Ok (fresh_receiver k (marks_of size))) (Err Refusal.CodeSize)) (Err Refusal.Block) }
    {
        if !block::known_length(k) {
            return Err(Refusal::Block);
        }
        Ok(Receiver::fresh(k, Marks::of(size)?))
    }

    // A receiver of blocks of k data bits.
    #[tactic(auto, unfolding(crate::specs::Receiving::open_receiver))]
    pub fn open(k: usize, size: Option<usize>) -> Opened
        ensures { OpenReceiver k size result }
    {
        match Receiver::opened(k, size) {
            Ok(state) => Opened {
                state,
                answer: Ok(()),
            },
            Err(refusal) => Opened {
                state: Receiver::fresh(0, Marks::NONE),
                answer: Err(refusal),
            },
        }
    }

    // The state without its array.
    pub fn head(self) -> Head
        ensures { with_array result self.bits ≡ self }
    {
        Head {
            setup: self.setup,
            held: self.held,
            bad_row: self.bad_row,
            back: self.back,
            taken: self.taken,
            ended: self.ended,
            phase: self.phase,
        }
    }

    // The next event among these bits of a line, with the number of them used; an accepted block's data go to the store. Where
    // these bits complete a block, ready says whether the machine can take it.
    pub fn receive(self, line: &[u8], bits: usize, ready: bool, store: &mut [u8]) -> Step
        ensures { Receive self line.now bits ready store.old result store.new }
    {
        let mut array = self.bits;
        let step = self.head().receive(&mut array, line, bits, ready, store);
        let head = step.head;
        Step {
            state: Receiver {
                setup: head.setup,
                bits: array,
                held: head.held,
                bad_row: head.bad_row,
                back: head.back,
                taken: head.taken,
                ended: head.ended,
                phase: head.phase,
            },
            answer: step.answer,
        }
    }
}
