// The sending end.
ghost use Rattle.std.specs.Prelude.{◌≡◌, Bool, ◌||◌, List, ℕ, ◌*◌, ◌≤◌, length};
ghost use Rattle.block.specs.Lengths.{block_length};
ghost use Rattle.line.specs.Sending.{confirmed, repeated, item_block, sender_in_range, gave_up, sent_block, OpenSender, Send};
ghost use Rattle.line.specs.Code.SendSteps.{GoingOn, Lent, judged, Sends};

use crate::Refusal;
use crate::loop_time::loop_time;
use crate::marks::Marks;
use crate::order::LONGEST_ORDER;
use block::{OVERHEAD, packed, too_short};

// The run of cancels at which a synchronising block comes before the repeat, and at which the sender gives up.
const SYNC_RUN: usize = 4;

const LAST_RUN: usize = 64;

// What goes out at the next call.
#[derive(Clone, Copy)]
pub enum Next {
    Sync,
    Older,
    Newer,
}

// What opening fixes: the data bits of a block, the bits of the order, which a receiver is not given, and the marks.
#[derive(Clone, Copy)]
pub struct Setup {
    pub k: usize,
    pub length: usize,
    pub marks: Marks,
}

#[derive(Clone, Copy)]
pub struct Sender {
    pub setup: Setup,
    // The newer item of the pair; the older is the one before it.
    pub newer: usize,
    // The run of cancels; 64 exactly when given up.
    pub run: usize,
    pub opening: bool,
    pub next: Next,
    pub finished: bool,
}

// What a sending call sent: an item or a synchronising block, which is no absence.
#[derive(Clone, Copy)]
pub enum Sent {
    Synchronising,
    Item {
        number: usize,
        // An end block.
        end: bool,
        // Its reading was used.
        used: bool,
        cancelled: bool,
    },
}

// By a rule of the project a step hands back a struct with the new state and the answer.
#[derive(Clone, Copy)]
pub struct Step {
    pub state: Sender,
    pub answer: Result<Sent, Refusal>,
}

// `GoingOn` is a clause of four private steps, and no type: by a rule of the project a step is a method on the sender.
impl Sender {
    // The pair is 0 and 1, opening lasts, and the first block is a synchronising block.
    #[tactic(auto, unfolding(crate::specs::Sending::open_sender, crate::specs::Sending::fresh_sender))]
    pub fn open(
        k: usize,
        speed: u32,
        loop_ms: u32,
        length: usize,
        size: Option<usize>,
        order: &[u8],
    ) -> Result<Sender, Refusal>
        ensures { OpenSender k speed loop_ms length size order.now result }
    {
        loop_time(k, speed, loop_ms)?;
        if length == 0 {
            return Err(Refusal::Empty);
        }
        if LONGEST_ORDER < length {
            return Err(Refusal::Long);
        }
        let marks = Marks::of(size)?;
        if too_short(order, length) {
            return Err(Refusal::Short);
        }
        Ok(Sender {
            setup: Setup { k, length, marks },
            newer: 1,
            run: 0,
            opening: true,
            next: Next::Sync,
            finished: false,
        })
    }

    // Every field within its range.
    #[tactic(auto, using(crate::proofs::Items::item_count_fits), unfolding(crate::specs::Sending::sender_in_range, crate::specs::Order::valid_length))]
    fn in_range(self) -> bool
        ensures { result ≡ sender_in_range self }
    {
        let setup = self.setup;
        block::known_length(setup.k)
            && (1..=LONGEST_ORDER).contains(&setup.length)
            && setup.marks.in_range()
            && (1..=setup.items() + 1).contains(&self.newer)
            && self.run <= LAST_RUN
    }

    // Finished or given up.
    fn at_rest(self) -> bool
        ensures { result ≡ self.finished || gave_up self }
    {
        self.finished || self.run == LAST_RUN
    }

    // Reading 0 of the newer item: the pair moves up by one, or the sender is finished.
    #[tactic(auto, using(crate::proofs::Items::item_count_fits), unfolding(crate::specs::Sending::sender_in_range, crate::specs::Order::valid_length))]
    fn confirmed(self) -> Sender
        requires { GoingOn self }
        ensures { result ≡ confirmed self }
    {
        let finished = self.newer == self.setup.items() + 1;
        Sender {
            newer: if finished { self.newer } else { self.newer + 1 },
            run: 0,
            opening: false,
            next: Next::Newer,
            finished,
            ..self
        }
    }

    // Reading 1 of the newer item: the run grows by one, and the pair is repeated.
    fn repeated(self) -> Sender
        requires { GoingOn self }
        ensures { result ≡ repeated self }
    {
        let run = self.run + 1;
        let next = if self.opening || SYNC_RUN <= run {
            Next::Sync
        } else {
            Next::Older
        };
        Sender { run, next, ..self }
    }

    // What a call says of the item that it sent.
    fn item(self, number: usize, used: bool, cancelled: bool) -> Sent
        requires { GoingOn self }
        ensures { sent_block result ≡ item_block self number used cancelled }
    {
        Sent::Item {
            number,
            end: self.setup.items() <= number,
            used,
            cancelled,
        }
    }

    // A synchronising block; the older item is next.
    fn send_sync(self, block: &mut [u8]) -> Step
        requires { (GoingOn self) × (block_length self.setup.k ≤ 8 * length block.old) }
        ensures { (order : List ℕ) (reading : Bool) → Sends self Next.Sync reading order block.old result block.new }
    {
        packed::synchronising(self.setup.k / 8, block).unwrap();
        Step {
            state: Sender {
                next: Next::Older,
                ..self
            },
            answer: Ok(Sent::Synchronising),
        }
    }

    // The older item, whose reading is ignored; the newer is next.
    fn send_older(self, order: &[u8], block: &mut [u8]) -> Step
        requires { Lent self order.now block.old }
        ensures { (reading : Bool) → Sends self Next.Older reading order.now block.old result block.new }
    {
        let older = self.newer - 1;
        self.setup.write_item(older, order, block);
        Step {
            state: Sender {
                next: Next::Newer,
                ..self
            },
            answer: Ok(self.item(older, false, false)),
        }
    }

    // The newer item, cancelled if its reading is 1.
    fn send_newer(self, order: &[u8], reading: bool, block: &mut [u8]) -> Step
        requires { Lent self order.now block.old }
        ensures { Sends self Next.Newer reading order.now block.old result block.new }
    {
        let newer = self.newer;
        self.setup.write_item(newer, order, block);
        if reading {
            packed::cancel(self.setup.k / 8, block).unwrap();
            return Step {
                state: self.repeated(),
                answer: Ok(self.item(newer, true, true)),
            };
        }
        Step {
            state: self.confirmed(),
            answer: Ok(self.item(newer, true, false)),
        }
    }

    // Whether a call sends, lent this order and this slice for the block.
    #[tactic(auto, unfolding(crate::specs::Sending::sender_in_range, block::specs::Lengths::is_length))]
    fn judge(self, order: &[u8], block: &[u8]) -> Result<(), Refusal>
        ensures { result ≡ judged self order.now block.now }
    {
        if !self.in_range() {
            return Err(Refusal::Spoiled);
        }
        if self.at_rest() {
            return Err(Refusal::Rest);
        }
        if too_short(order, self.setup.length) || too_short(block, self.setup.k + OVERHEAD) {
            return Err(Refusal::Short);
        }
        Ok(())
    }

    // One block into block, on one reading of the return channel.
    pub fn send(self, order: &[u8], reading: bool, block: &mut [u8]) -> Step
        ensures { Send self order.now reading block.old result block.new }
    {
        if let Err(refusal) = self.judge(order, block) {
            return Step {
                state: self,
                answer: Err(refusal),
            };
        }
        // No table of steps: the match says what each case lends.
        match self.next {
            Next::Sync => self.send_sync(block),
            Next::Older => self.send_older(order, block),
            Next::Newer => self.send_newer(order, reading, block),
        }
    }
}
