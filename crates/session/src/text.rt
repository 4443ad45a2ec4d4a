// What the run program writes, each text in fixed memory.
ghost use Rattle.std.specs.Prelude.{◌≡◌, ◌+◌, ◌<◌, ◌≤◌, length};
ghost use Rattle.session.specs.Buffer.{Appends};
ghost use Rattle.session.specs.Text.{decimal, bit_text, block_text, mark_text, item_text, reading_text, event_text, holding, heading, refused_text, line_text, numbered, outcome_text};

use crate::buffer::Buffer;
use crate::period::{Block, Line};
use line::receiving::Event;

// The longest line has 62 bytes.
pub type Text = Buffer<64>;

// A `write!` in place of these promises no success, and the texts are promised whole. Each asks for its own room; a type of texts
// with room for one byte would serve three of them.
impl Text {
    fn decimal(&mut self, n: u64)
        requires { self.old.len + length (decimal n) ≤ 64 }
        ensures { Appends self.old (decimal n) self.new }
    {
        if n < 10 {
            self.push(b'0' + n as u8);
        } else {
            self.decimal(n / 10);
            self.push(b'0' + (n % 10) as u8);
        }
    }

    fn bit(&mut self, bit: bool)
        requires { self.old.len < 64 }
        ensures { Appends self.old (bit_text bit) self.new }
    {
        self.push(if bit { b'1' } else { b'0' });
    }

    fn block(&mut self, block: Block)
        requires { self.old.len ≤ 43 }
        ensures appends { Appends self.old (block_text block) self.new }
        ensures len_bound { self.new.len ≤ self.old.len + 21 }
    {
        match block {
            Block::Synchronising => self.push(b'S'),
            Block::Item {
                number,
                end,
                cancelled,
            } => {
                self.mark(cancelled);
                self.item(number, end);
            }
        }
    }

    // The mark of a cancelled block.
    fn mark(&mut self, cancelled: bool)
        requires { self.old.len < 64 }
        ensures appends { Appends self.old (mark_text cancelled) self.new }
        ensures len_bound { self.new.len ≤ self.old.len + 1 }
    {
        if cancelled {
            self.push(b'!');
        }
    }

    fn item(&mut self, number: usize, end: bool)
        requires { self.old.len ≤ 44 }
        ensures appends { Appends self.old (item_text number end) self.new }
        ensures len_bound { self.new.len ≤ self.old.len + 20 }
    {
        if end {
            self.push(b'E');
        } else {
            self.decimal(number as u64);
        }
    }

    fn reading(&mut self, reading: Option<bool>)
        requires { self.old.len < 64 }
        ensures appends { Appends self.old (reading_text reading) self.new }
        ensures len_bound { self.new.len ≤ self.old.len + 1 }
    {
        match reading {
            None => self.push(b'-'),
            Some(bit) => self.bit(bit),
        }
    }

    fn event(&mut self, event: Event)
        requires { self.old.len ≤ 50 }
        ensures appends { Appends self.old (event_text event) self.new }
        ensures len_bound { self.new.len ≤ self.old.len + 14 }
    {
        match event {
            Event::None => self.append(b"none"),
            Event::Sync => self.append(b"sync"),
            Event::Bad(_) => self.append(b"bad"),
            Event::Accepted => self.append(b"accepted"),
            Event::Previous => self.append(b"previous"),
            Event::SequenceAlarm => self.append(b"sequence alarm"),
            Event::LengthAlarm => self.append(b"length alarm"),
            Event::Ended(_) => self.append(b"ended"),
            Event::Wait => self.append(b"wait"),
        }
    }
}

// The heading, which comes first.
#[tactic(auto, unfolding(crate::specs::Text::heading), using(crate::proofs::Appending::appends_all))]
pub fn heading_text() -> Text
    ensures { result ≡ holding heading }
{
    let mut text = Text::new();
    text.append(b"period sent read event back\n");
    text
}

// A number, and no Refusal: its promise is of every number.
pub fn refused_text(number: u8) -> Text
    ensures { result ≡ holding (refused_text number) }
{
    let mut text = Text::new();
    text.append(b"refused ");
    text.decimal(u64::from(number));
    text.append(b"\n");
    text
}

pub fn line_text(period: u64, line: Line) -> Text
    ensures { result ≡ holding (line_text period line) }
{
    let mut text = Text::new();
    text.decimal(period);
    text.push(b' ');
    text.block(line.sent.block);
    text.push(b' ');
    text.reading(line.sent.reading);
    text.push(b' '); // the event may hold a blank itself
    text.event(line.event);
    text.push(b' ');
    text.bit(line.back);
    text.push(b'\n');
    text
}

// What is written of a period: its line, or the number of the refusal that ends the run. A number, as of `refused_text`.
pub fn outcome_text(period: u64, outcome: Result<Line, u8>) -> Text
    ensures { result ≡ holding (outcome_text period (numbered outcome)) }
{
    match outcome {
        Ok(line) => line_text(period, line),
        Err(number) => refused_text(number),
    }
}
