// A session read from its input one byte at a time: line one, then a line for each period. A byte yields nothing, a refusal or
// a period's line, as data; how it is written is for the caller.
ghost use Rattle.std.specs.Prelude.{◌≡◌, length};
ghost use Rattle.session.specs.Session.{fresh, quiet, refused_at, taken_answer, sender_opened, opens, after_period, period_taken, period_of, order_of, kind_at, line_one_read, over, Take, End};
ghost use Rattle.session.specs.LineOne.{next_order};
ghost use Rattle.session.specs.Outcomes.{speed, loop_ms, code_size};
ghost use Rattle.session.specs.Period.{answer_of};
ghost use Rattle.line.specs.Refusals.{refusal_number};
ghost use Rattle.line.specs.Sending.{open_sender};

use crate::line_one::LineOne;
use crate::period::{Ends, Kind, Outcome, run_period};
use line::Refusal;
use line::marks::Marks;
use line::order::LONGEST_ORDER;
use line::receiver::Receiver;
use line::sender::{Next, Sender, Setup};

// The room that a session is lent for the order, and for the store: the longest order in items of 3840 bits, the last one
// filled, which is the most over the four block lengths.
pub const ORDER_BYTES: usize = LONGEST_ORDER / 8;

pub const STORE_BYTES: usize = (LONGEST_ORDER + 3839) / 3840 * 480;

// Speed and loop of every session; none has marks.
const SPEED: u32 = 200;

const LOOP_MS: u32 = 0;

// Where in the input.
#[derive(Clone, Copy)]
pub enum Place {
    LineOne,
    LineStart,
    // The one letter of a line was read.
    Kind(Kind),
    // Nothing more is read.
    Over,
}

#[derive(Clone, Copy)]
pub struct Session {
    pub place: Place,
    pub opening: LineOne,
    pub ends: Ends,
}

// What comes of a byte of input, or of its end.
#[derive(Clone, Copy)]
pub struct Taken {
    pub session: Session,
    pub yielded: Option<Outcome>,
}

// What the first byte of a line says.
#[tactic(auto, unfolding(crate::specs::Outcomes::letter_kind))]
fn kind_at(c: u8) -> Place
    ensures { result ≡ kind_at c }
{
    match c {
        b't' => Place::Kind(Kind::Undisturbed),
        b'f' => Place::Kind(Kind::Turned),
        b'd' => Place::Kind(Kind::Damaged),
        _ => Place::Over,
    }
}

fn after_period(outcome: Outcome) -> Place
    ensures { result ≡ after_period (answer_of outcome) }
{
    match outcome {
        Ok(_) => Place::LineStart,
        Err(_) => Place::Over,
    }
}

impl Session {
    #[tactic(auto, unfolding(crate::specs::Session::fresh, line::specs::Sending::fresh_sender, line::specs::Receiving::open_receiver, block::specs::Lengths::is_length))]
    pub fn new() -> Session
        ensures { result ≡ fresh }
    {
        Session {
            place: Place::LineOne,
            opening: LineOne::new(),
            ends: Ends {
                sender: Sender {
                    setup: Setup {
                        k: 0,
                        length: 0,
                        marks: Marks::NONE,
                    },
                    newer: 1,
                    run: 0,
                    opening: true,
                    next: Next::Sync,
                    finished: false,
                },
                receiver: Receiver::open(0, None).state,
            },
        }
    }

    fn quiet(self, place: Place) -> Taken
        ensures { taken_answer result ≡ quiet self place }
    {
        Taken {
            session: Session { place, ..self },
            yielded: None,
        }
    }

    // The bytes of the order that line one gave.
    fn order_of<'a>(&self, order: &'a [u8]) -> &'a [u8]
        ensures { result.now ≡ order_of self.now order.now }
    {
        &order[..self.opening.kept.min(order.len())]
    }

    // A refusal ends the run.
    fn refused(self, refusal: Refusal) -> Taken
        ensures { taken_answer result ≡ refused_at self (refusal_number refusal) }
    {
        Taken {
            session: Session {
                place: Place::Over,
                ..self
            },
            yielded: Some(Err(refusal)),
        }
    }

    // Both ends opened, the sender first.
    fn open_ends(self, order: &[u8]) -> Result<Ends, Refusal>
        ensures { answer_of result ≡ sender_opened self (open_sender self.opening.k speed loop_ms self.opening.length code_size (order_of self order.now)) }
    {
        let sender = Sender::open(
            self.opening.k,
            SPEED,
            LOOP_MS,
            self.opening.length,
            None,
            self.order_of(order),
        )?;
        let opened = Receiver::open(self.opening.k, None);
        opened.answer?;
        Ok(Ends {
            sender,
            receiver: opened.state,
        })
    }

    // Line one ends: both ends are opened.
    #[tactic(auto, unfolding(crate::specs::Session::opens))]
    fn open(self, order: &[u8]) -> Taken
        ensures { taken_answer result ≡ opens self order.now }
    {
        if !self.opening.is_readable() {
            return self.quiet(Place::Over);
        }
        match self.open_ends(order) {
            Ok(ends) => Taken {
                session: Session {
                    place: Place::LineStart,
                    ends,
                    ..self
                },
                yielded: None,
            },
            Err(refusal) => self.refused(refusal),
        }
    }

    // A line of a kind ends: a period.
    fn line(self, kind: Kind, order: &[u8], store: &mut [u8]) -> Taken
        ensures value { taken_answer result ≡ period_taken self (period_of self kind order.now store.old) }
        ensures store_after { store.new ≡ (period_of self kind order.now store.old).store }
    {
        let period = run_period(kind, self.ends, self.order_of(order), store);
        Taken {
            session: Session {
                place: after_period(period.outcome),
                ends: period.ends,
                ..self
            },
            yielded: Some(period.outcome),
        }
    }

    fn read_line_one(self, c: u8, order: &mut [u8]) -> Taken
        ensures value { taken_answer result ≡ line_one_read self c (length order.old) }
        ensures order_after { order.new ≡ next_order self.opening self.opening.place c order.old }
    {
        Taken {
            session: Session {
                place: Place::LineOne,
                opening: self.opening.read(c, order),
                ..self
            },
            yielded: None,
        }
    }

    // What a byte of input brings: the session after it and what it yields. The order and the store are lent apart: line one
    // writes the order alone, a period the store alone.
    #[tactic(auto, unfolding(crate::specs::Session::takes, crate::specs::Session::takes_order, crate::specs::Session::takes_store))]
    pub fn read(self, c: u8, order: &mut [u8], store: &mut [u8]) -> Taken
        ensures { Take self c order.old store.old result order.new store.new }
    {
        // No table of steps, here and in `end`: the steps are lent different things.
        match self.place {
            Place::LineOne => {
                if c == b'\n' {
                    return self.open(order);
                }
                self.read_line_one(c, order)
            }
            Place::LineStart => self.quiet(kind_at(c)),
            Place::Kind(kind) => {
                if c == b'\n' {
                    return self.line(kind, order, store);
                }
                self.quiet(Place::Over)
            }
            Place::Over => self.quiet(Place::Over),
        }
    }

    // What the end of the input brings: a last line with no newline counts.
    #[tactic(auto, unfolding(crate::specs::Session::ends, crate::specs::Session::ends_store))]
    pub fn end(self, order: &[u8], store: &mut [u8]) -> Taken
        ensures { End self order.now store.old result store.new }
    {
        match self.place {
            Place::LineOne => self.open(order),
            Place::LineStart => self.quiet(Place::Over),
            Place::Kind(kind) => self.line(kind, order, store),
            Place::Over => self.quiet(Place::Over),
        }
    }

    pub fn is_over(self) -> bool
        ensures { result ≡ over self.place }
    {
        matches!(self.place, Place::Over)
    }
}
