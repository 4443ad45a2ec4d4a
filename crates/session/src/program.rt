// The run program, a part of its input at a time: what the session yields, as text. What it keeps is made and changed here
// alone: a caller reads the parts, writes the outputs and decides nothing.
ghost use Rattle.std.specs.Prelude.{◌≡◌, ◌+◌, ◌*◌, ◌≤◌, length, take};
ghost use Rattle.session.specs.Buffer.{Appends};
ghost use Rattle.session.specs.Session.{yielded_answer};
ghost use Rattle.session.specs.Text.{room};
ghost use Rattle.session.specs.Program.{output_room, yield_text, number_after, byte_taken, after_byte, after_bytes, bytes_text, end_text, after_end, first_turn, turn};

use crate::buffer::Buffer;
use crate::period::Outcome;
use crate::script::{ORDER_BYTES, Place, STORE_BYTES, Session};
use crate::text::{heading_text, outcome_text};

// The most bytes of a part: what one read of the input brings.
pub const PART_BYTES: usize = 2048;

// A byte brings a text of 64 bytes at most.
const OUTPUT_BYTES: usize = 64 * PART_BYTES;

// What is to be written.
pub type Output = Buffer<OUTPUT_BYTES>;

#[derive(Clone, Copy)]
pub struct Program {
    session: Session,
    // The number of the next period.
    number: u64,
    order: [u8; ORDER_BYTES],
    store: [u8; STORE_BYTES],
}

#[derive(Clone, Copy)]
pub struct Turn {
    pub program: Program,
    pub output: Output,
    // Nothing more is to be read. A flag, and no Option of the program: `turn` and `Whole` name the program after the end too.
    pub over: bool,
}

fn number_after(number: u64, yielded: Option<Outcome>) -> u64
    ensures { result ≡ number_after number (yielded_answer yielded) }
{
    match yielded {
        Some(_) => number.saturating_add(1),
        None => number,
    }
}

// The room asked of an output is a clause of three functions: a type that has it would be made anew for each byte.
fn put_yield(number: u64, yielded: Option<Outcome>, output: &mut Output)
    requires { output.old.len + room ≤ output_room }
    ensures fits { length (yield_text number (yielded_answer yielded)) ≤ room }
    ensures appends { Appends output.old (yield_text number (yielded_answer yielded)) output.new }
{
    if let Some(outcome) = yielded {
        let text = outcome_text(number, outcome.map_err(u8::from));
        output.append(text.as_slice());
    }
}

impl Program {
    // Before the first byte: the heading is to be written.
    pub fn start() -> Turn
        ensures { result ≡ first_turn }
    {
        let mut output = Output::new();
        output.append(heading_text().as_slice());
        Turn {
            program: Program {
                session: Session::new(),
                number: 0,
                order: [0; ORDER_BYTES],
                store: [0; STORE_BYTES],
            },
            output,
            over: false,
        }
    }

    fn read_byte(&mut self, c: u8, output: &mut Output)
        requires { output.old.len + room ≤ output_room }
        ensures program { self.new ≡ after_byte self.old c }
        ensures fits { output.new.len ≤ output.old.len + room }
        ensures appends { Appends output.old (yield_text self.old.number (byte_taken self.old c).yielded) output.new }
    {
        let taken = self.session.read(c, &mut self.order, &mut self.store);
        put_yield(self.number, taken.yielded, output);
        self.number = number_after(self.number, taken.yielded);
        self.session = taken.session;
    }

    // The bytes of a part.
    fn read_bytes(&mut self, part: &[u8], output: &mut Output)
        requires { output.old.len + room * length part.now ≤ output_room }
        ensures program { self.new ≡ after_bytes self.old part.now }
        ensures appends { Appends output.old (bytes_text self.old part.now) output.new }
    {
        for c in part {
            self.read_byte(*c, output);
        }
    }

    // The end of the input, after which nothing more is read.
    fn end(&mut self, output: &mut Output)
        requires { output.old.len + room ≤ output_room }
        ensures program { self.new ≡ after_end self.old }
        ensures appends { Appends output.old (end_text self.old) output.new }
    {
        let taken = self.session.end(&self.order, &mut self.store);
        put_yield(self.number, taken.yielded, output);
        self.session = Session {
            place: Place::Over,
            ..taken.session
        };
    }

    // The first `count` bytes of a part; none are the end of the input.
    pub fn read(self, part: &[u8; PART_BYTES], count: usize) -> Turn
        ensures { result ≡ turn self (take count part.now) }
    {
        let mut program = self;
        let mut output = Output::new();
        if count == 0 {
            program.end(&mut output);
        } else {
            program.read_bytes(&part[..count.min(part.len())], &mut output);
        }
        Turn {
            program,
            output,
            over: program.session.is_over(),
        }
    }
}
