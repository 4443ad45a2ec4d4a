// The order as items: their number, letters, data and blocks.
ghost use Rattle.std.specs.Prelude.{◌≡◌, true, ◌++◌, ◌+◌, ◌-◌, ◌*◌, ◌≤◌, ◌<◌, length, take, drop};
ghost use Rattle.crc.specs.Bits.{binary, bits_of, bytes_of, number, zeros};
ghost use Rattle.block.specs.Lengths.{block_bytes};
ghost use Rattle.block.specs.Block.{block_bits};
ghost use Rattle.block.specs.Calls.{overwritten};
ghost use Rattle.line.specs.Order.{longest_order, item_count, letter, end_service, data_service, order_bits, end_payload, item_bits};
ghost use Rattle.line.specs.Code.SendSteps.{Writable};

use crate::marks::{Marks, mark};
use crate::sender::Setup;
use block::packed;

// The longest order in bits.
pub const LONGEST_ORDER: usize = 262144;

// The most data items that an order makes: those of the longest at the shortest k. A constant's value can't call `div_ceil`.
pub(crate) const MOST_ITEMS: usize = (LONGEST_ORDER + 239) / 240;

// Bits on the line, and no enum: any of the sixteen may arrive.
pub(crate) const LETTER_A: u8 = 0b0011;

pub(crate) const LETTER_B: u8 = 0b1001;

pub(crate) const LETTER_C: u8 = 0b1100;

pub(crate) const END: u8 = 0b1000;

// The version that an end block carries, a byte of it.
pub(crate) const VERSION: u8 = 1;

// The number of data items that these bits make, 0 if k is 0.
#[tactic(auto, unfolding(crate::specs::Order::item_count))]
pub fn item_count(k: usize, bits: usize) -> usize
    ensures { result ≡ item_count k bits }
{
    if k == 0 { 0 } else { bits.div_ceil(k) }
}

// The letter of item i.
#[tactic(auto, unfolding(crate::specs::Order::letter))]
pub(crate) fn letter(i: usize) -> u8
    ensures { result ≡ letter i }
{
    match i % 3 {
        0 => LETTER_A,
        1 => LETTER_B,
        _ => LETTER_C,
    }
}

// The service bits of data item i.
#[tactic(auto, unfolding(crate::specs::Order::data_service))]
fn data_service(marks: Marks, i: usize) -> u8
    ensures { result ≡ data_service marks i }
{
    if !marks.in_use {
        letter(i)
    } else if i == 0 {
        mark(marks.size)
    } else {
        letter(i - 1)
    }
}

// The first count bits of a byte, zeros behind them.
fn keep_first(x: u8, count: usize) -> u8
    requires { count < 8 }
    ensures { result ≡ number (take 8 (take count (binary 8 x) ++ zeros 8)) }
{
    x & !(255 >> count)
}

// The order's bits from byte start on up to its last, zeros behind them.
fn last_data(order: &[u8], bits: usize, start: usize) -> [u8; 480]
    requires { (8 * start ≤ bits) × (bits ≤ 8 * start + 3840) × (bits ≤ 8 * length order.now) }
    ensures { result ≡ bytes_of 480 (drop (8 * start) (order_bits bits order.now)) }
{
    let mut payload = [0u8; 480];
    let whole = bits / 8 - start;
    payload[..whole].copy_from_slice(&order[start..start + whole]);
    let rest = bits % 8;
    if 0 < rest {
        payload[whole] = keep_first(order[start + whole], rest);
    }
    payload
}

// An end block's data: the version, then the order's length in 32 bits.
fn end_data(bits: usize) -> [u8; 480]
    requires { bits ≤ longest_order }
    ensures { bits_of result ≡ end_payload 3840 bits }
{
    let mut payload = [0u8; 480];
    payload[0] = VERSION;
    payload[1..5].copy_from_slice(&(bits as u32).to_be_bytes());
    payload
}

// `Writable` is a clause of five of these, and no type: a struct would hold the lent block as well.
impl Setup {
    // The number of the order's data items.
    pub(crate) fn items(self) -> usize
        ensures { result ≡ item_count self.k self.length }
    {
        item_count(self.k, self.length)
    }

    // These service bits and data, with their check bits, over the first bytes of block.
    fn build(self, service: u8, payload: &[u8], block: &mut [u8])
        requires { (Writable self block.old) × (service < 16) × (self.k ≤ 8 * length payload.now) }
        ensures { block.new ≡ overwritten (block_bytes self.k) (block_bits (binary 4 service) (take self.k (bits_of payload.now))) block.old }
    {
        packed::build(self.k / 8, service, payload, block).unwrap();
    }

    // An end block over the first bytes of block.
    fn write_end(self, block: &mut [u8])
        requires { Writable self block.old }
        ensures { block.new ≡ overwritten (block_bytes self.k) (block_bits (binary 4 end_service) (end_payload self.k self.length)) block.old }
    {
        let payload = end_data(self.length);
        self.build(END, &payload, block);
    }

    // Item i, whose data are all of the order, over the first bytes of block.
    fn write_whole(self, i: usize, order: &[u8], block: &mut [u8])
        requires { (Writable self block.old) × (i * self.k + self.k ≤ 8 * length order.now) }
        ensures { block.new ≡ overwritten (block_bytes self.k) (block_bits (binary 4 (data_service self.marks i)) (take self.k (drop (i * self.k) (bits_of order.now)))) block.old }
    {
        let start = i * (self.k / 8);
        let end = start + self.k / 8;
        self.build(data_service(self.marks, i), &order[start..end], block);
    }

    // Item i, the order's last bits and the filling behind them, over the first bytes of block.
    fn write_last(self, i: usize, order: &[u8], block: &mut [u8])
        requires { (Writable self block.old) × (i * self.k ≤ self.length) × (self.length ≤ i * self.k + self.k) × (self.length ≤ 8 * length order.now) }
        ensures { block.new ≡ overwritten (block_bytes self.k) (block_bits (binary 4 (data_service self.marks i)) (drop (i * self.k) (order_bits self.length order.now) ++ zeros (i * self.k + self.k - self.length))) block.old }
    {
        let payload = last_data(order, self.length, i * (self.k / 8));
        self.build(data_service(self.marks, i), &payload, block);
    }

    // Item i over the first bytes of block.
    pub(crate) fn write_item(self, i: usize, order: &[u8], block: &mut [u8])
        requires { (Writable self block.old) × (self.length ≤ 8 * length order.now) }
        ensures { block.new ≡ overwritten (block_bytes self.k) (item_bits self.marks self.k self.length (order_bits self.length order.now) i) block.old }
    {
        if self.items() <= i {
            self.write_end(block);
        } else if self.length / self.k <= i {
            self.write_last(i, order, block);
        } else {
            self.write_whole(i, order, block);
        }
    }
}
