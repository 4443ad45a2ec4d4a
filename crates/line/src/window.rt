// The window of a search: the latest 15 bits at most.
ghost use Rattle.std.specs.Prelude.{◌≡◌, false, [], ◌∷◌, ◌++◌, ◌+◌, ◌*◌, ◌^◌, ◌≤◌, ◌<◌, length, take, get_or};
ghost use Rattle.crc.specs.Bits.{bit, binary, bits_of, bytes_of};
ghost use Rattle.line.specs.Receiving.{latest, is_sequence};

use block::SEQUENCE;

#[derive(Clone, Copy)]
pub(crate) struct Window {
    pub held: usize,
    // The bits held, as a number.
    pub number: u16,
    ghost few: { held ≤ 15 },
    ghost within: { number < 2 ^ held },
}

pub(crate) fn bit_at(s: &[u8], i: usize) -> bool
    requires { i < 8 * length s.now }
    ensures { result ≡ get_or (bits_of s.now) i false }
{
    let byte = s[i / 8];
    byte >> (7 - i % 8) & 1 == 1
}

impl Window {
    // From the array's first two bytes.
    pub(crate) fn load(held: usize, pair: [u8; 2]) -> Window
        requires { held ≤ 15 }
        ensures { (result.held ≡ held) × (binary result.held result.number ≡ take held (bits_of pair)) }
    {
        let both = u32::from(u16::from_be_bytes(pair));
        Window {
            held,
            number: (both >> (16 - held)) as u16,
        }
    }

    // Into two bytes, zero bits behind it.
    pub(crate) fn store(self) -> [u8; 2]
        ensures { result ≡ bytes_of 2 (binary self.held self.number) }
    {
        let both = u32::from(self.number) << (16 - self.held);
        (both as u16).to_be_bytes()
    }

    // One bit more.
    fn shifted(self, next: bool) -> u16
        ensures { result ≡ self.number * 2 + bit next }
    {
        self.number << 1 | u16::from(next)
    }

    // Whether the next bit ends the sequence.
    pub(crate) fn ends_sequence(self, next: bool) -> bool
        ensures { result ≡ is_sequence (binary self.held self.number ++ (next ∷ [])) }
    {
        self.held == 15 && self.shifted(next) == SEQUENCE
    }

    // The next bit in, and the earliest of sixteen out.
    pub(crate) fn slide(self, next: bool) -> Window
        ensures { binary result.held result.number ≡ latest (binary self.held self.number ++ (next ∷ [])) }
    {
        let number = self.shifted(next);
        if self.held < 15 {
            return Window {
                held: self.held + 1,
                number,
            };
        }
        Window {
            held: 15,
            number: number & 0x7fff,
        }
    }
}
