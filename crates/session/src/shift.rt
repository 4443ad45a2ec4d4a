// The bits of a slice moved to its start.
ghost use Rattle.std.specs.Prelude.{◌≡◌, ◌+◌, ◌-◌, ◌*◌, ◌/◌, ◌%◌, ◌^◌, ◌<◌, length, drop};
ghost use Rattle.crc.specs.Bits.{bits_of, bytes_of};

use block::byte_at;

// Eight bits of two bytes, from a bit of the first on.
fn shifted(first: u8, second: u8, part: usize) -> u8
    requires { part < 8 }
    ensures { result ≡ (first * 256 + second) / 2 ^ (8 - part) % 256 }
{
    let both = u16::from_be_bytes([first, second]);
    ((both >> (8 - part)) % 256) as u8
}

// The slice's bits from bit used on, at its start, zero bits behind them.
pub fn drop_bits(s: &mut [u8], used: usize)
    ensures { s.new ≡ bytes_of (length s.old) (drop used (bits_of s.old)) }
{
    let from = used / 8;
    let part = used % 8;
    // By place: a byte is made of two, which stand from another place on.
    for i in 0..s.len() {
        s[i] = shifted(byte_at(s, from + i), byte_at(s, from + i + 1), part);
    }
}
