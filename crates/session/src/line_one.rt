// Line one of a session, read one byte at a time in fixed memory.
ghost use Rattle.std.specs.Prelude.{◌≡◌, ◌<◌, length, IfSome};
ghost use Rattle.session.specs.LineOne.{decimal_value, hex_value, grown, start, moved, blank_next, k_next, length_next, hex_next, next, next_at, next_order, readable};

// Above every k and every L that is not refused: a larger number stands as this.
pub const LIMIT: usize = 1_000_000;

// What was read last.
#[derive(Clone, Copy)]
pub enum Place {
    // Nothing: k comes next.
    K,
    KDigits,
    // The blank before L.
    Length,
    LengthDigits,
    // The blank behind L.
    Order,
    // The first digit of a byte of the order.
    Half(u8),
    // A whole byte of the order.
    Bytes,
    // A blank behind the order.
    Trailed,
    Unreadable,
}

#[derive(Clone, Copy)]
pub struct LineOne {
    pub place: Place,
    pub k: usize,
    pub length: usize,
    // The bytes of the order that stand in the lent slice.
    pub kept: usize,
}

// The value of a decimal digit. This and `hex_value` are one function of the library, each at its base.
#[tactic(auto, unfolding(crate::specs::LineOne::decimal_value), using(std::proofs::lemmas::Grind::common_steps, std::proofs::lemmas::Bool::Decides::nat_tests))]
pub fn decimal_value(c: u8) -> Option<u8>
    ensures { result ≡ decimal_value c }
{
    Some(char::from(c).to_digit(10)? as u8)
}

// The value of a hexadecimal digit.
#[tactic(auto, unfolding(crate::specs::LineOne::hex_value), using(std::proofs::lemmas::Grind::common_steps, std::proofs::lemmas::Bool::Decides::nat_tests))]
pub fn hex_value(c: u8) -> Option<u8>
    ensures value { result ≡ hex_value c }
    ensures small { IfSome result (λ digit. digit < 16) }
{
    Some(char::from(c).to_digit(16)? as u8)
}

// A number with one decimal digit more.
fn grow(n: usize, digit: u8) -> usize
    ensures { result ≡ grown n digit }
{
    n.saturating_mul(10)
        .saturating_add(usize::from(digit))
        .min(LIMIT)
}

impl LineOne {
    pub fn new() -> LineOne
        ensures { result ≡ start }
    {
        LineOne {
            place: Place::K,
            k: 0,
            length: 0,
            kept: 0,
        }
    }

    fn at(self, place: Place) -> LineOne
        ensures { result ≡ moved self place }
    {
        LineOne { place, ..self }
    }

    // A blank leads to a place; any other character cannot be read.
    fn read_blank(self, c: u8, place: Place) -> LineOne
        ensures { result ≡ blank_next self c place }
    {
        self.at(if c == b' ' { place } else { Place::Unreadable })
    }

    // A digit of k, or the blank that leads to the place behind it. Two functions, this and `read_length`: in one, a switch would
    // say which field grows.
    fn read_k(self, c: u8, behind: Place) -> LineOne
        ensures { result ≡ k_next self c behind }
    {
        match decimal_value(c) {
            Some(digit) => LineOne {
                place: Place::KDigits,
                k: grow(self.k, digit),
                ..self
            },
            None => self.read_blank(c, behind),
        }
    }

    // A digit of L, or the blank that leads to the place behind it.
    fn read_length(self, c: u8, behind: Place) -> LineOne
        ensures { result ≡ length_next self c behind }
    {
        match decimal_value(c) {
            Some(digit) => LineOne {
                place: Place::LengthDigits,
                length: grow(self.length, digit),
                ..self
            },
            None => self.read_blank(c, behind),
        }
    }

    // The first digit of a byte, or the blank that leads to the place behind the order.
    fn read_high(self, c: u8, behind: Place) -> LineOne
        ensures { result ≡ hex_next self c behind }
    {
        match hex_value(c) {
            Some(digit) => self.at(Place::Half(digit)),
            None => self.read_blank(c, behind),
        }
    }

    // The second digit of a byte: the byte is kept where there is room for it.
    #[tactic(auto, unfolding(crate::specs::LineOne::next_at, crate::specs::LineOne::next_order))]
    fn read_low(self, high: u8, c: u8, order: &mut [u8]) -> LineOne
        ensures value { result ≡ next_at self (Place.Half high) c (length order.old) }
        ensures order_after { order.new ≡ next_order self (Place.Half high) c order.old }
    {
        let Some(digit) = hex_value(c) else {
            return self.at(Place::Unreadable);
        };
        // No `get_mut`: of the order's slice behind it nothing is proved.
        let at = self.kept;
        if order.len() <= at {
            return self.at(Place::Bytes);
        }
        order[at] = high % 16 * 16 + digit;
        LineOne {
            place: Place::Bytes,
            kept: at + 1,
            ..self
        }
    }

    // The state after one byte of the line; a byte of the order that is complete goes to the lent slice.
    #[tactic(auto, unfolding(crate::specs::LineOne::next_at, crate::specs::LineOne::next_order))]
    pub fn read(self, c: u8, order: &mut [u8]) -> LineOne
        ensures value { result ≡ next self c (length order.old) }
        ensures order_after { order.new ≡ next_order self self.place c order.old }
    {
        // No table of steps: a place may carry a value, and one step writes.
        match self.place {
            Place::K => self.read_k(c, Place::Unreadable),
            Place::KDigits => self.read_k(c, Place::Length),
            Place::Length => self.read_length(c, Place::Unreadable),
            Place::LengthDigits => self.read_length(c, Place::Order),
            Place::Order => self.read_high(c, Place::Unreadable),
            Place::Half(high) => self.read_low(high, c, order),
            Place::Bytes => self.read_high(c, Place::Trailed),
            Place::Trailed => self.at(Place::Unreadable),
            Place::Unreadable => self.at(Place::Unreadable),
        }
    }

    // Whether the line can be read where it ends here.
    pub fn is_readable(self) -> bool
        ensures { result ≡ readable self.place }
    {
        matches!(
            self.place,
            Place::LengthDigits | Place::Order | Place::Bytes | Place::Trailed
        )
    }
}
