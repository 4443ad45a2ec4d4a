// The bits of one unfinished block: new ones are moved in behind those held, by bytes.
ghost use Rattle.std.specs.Prelude.{◌≡◌, ◌++◌, ◌+◌, ◌*◌, ◌<◌, take, drop};
ghost use Rattle.crc.specs.Bits.{binary, bits_of, bytes_of};
ghost use Rattle.line.specs.Receiving.{array_bytes, overwrite};

use crate::receiving::{ARRAY_SIZE, Line};
use block::byte_at;

// n is below 8 in three clauses, and no type of its own: it is a remainder by 8 where it is made.

// The first n bits of a byte, as the last n of a byte.
fn first_bits(x: u8, n: usize) -> u8
    requires { n < 8 }
    ensures { binary n result ≡ take n (binary 8 x) }
{
    (u16::from(x) >> (8 - n)) as u8
}

// The last n bits of carry, then the first bits of x.
fn join(carry: u8, n: usize, x: u8) -> u8
    requires { n < 8 }
    ensures { binary 8 result ≡ take 8 (binary n carry ++ binary 8 x) }
{
    ((u16::from(carry) << 8 | u16::from(x)) >> n & 255) as u8
}

// The first n bits of one byte, then the others of another.
fn merge(new: u8, n: usize, old: u8) -> u8
    requires { n < 8 }
    ensures { binary 8 result ≡ take n (binary 8 new) ++ drop n (binary 8 old) }
{
    new & !(255 >> n) | old & (255 >> n)
}

// The line's bits become the array's from place held on; no other bit of the array changes.
pub(crate) fn put_bits(array: &mut [u8; ARRAY_SIZE], held: usize, line: Line)
    requires { held + line.bits < 8 * array_bytes }
    ensures { array.new ≡ bytes_of array_bytes (overwrite held (take line.entry.bits (bits_of line.entry.bytes.now)) (bits_of array.old)) }
{
    let shift = held % 8;
    let from = held / 8;
    let whole = (shift + line.bits) / 8;
    let mut carry = first_bits(array[from], shift);
    // By index: of what `iter_mut` under a `zip` has written the check knows no byte.
    for (i, x) in line.bytes[..whole].iter().enumerate() {
        let x = *x;
        array[from + i] = join(carry, shift, x);
        carry = x;
    }
    let to = from + whole;
    let last = join(carry, shift, byte_at(line.bytes, whole));
    array[to] = merge(last, (shift + line.bits) % 8, array[to]);
}
