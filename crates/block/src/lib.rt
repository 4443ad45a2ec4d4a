// The V.41 block: 4 service bits, k data bits, 16 check bits, packed with the earliest bit in the top bit.
#![tactic(auto)]

ghost use Rattle.std.specs.Prelude.{◌≡◌, ◌++◌, ◌/◌, get_or};
ghost use Rattle.crc.specs.Bits.{binary};
ghost use Rattle.block.specs.Answer.{done};
ghost use Rattle.block.specs.Lengths.{is_length};
ghost use Rattle.block.specs.Calls.{refusal_number, verdict_of, carried_remainder, too_short, BuildBlock, CheckBlock, ReadService, MoveData, ReadBlock, BuildSync, CancelBlock};
ghost use Rattle.block.specs.Packed.{LookUp};

pub mod packed;

use crate::packed::shift_half;

// Why a call turns its input away, each with its number; docs/PROTOCOL.md, "What the ends turn away".
#[derive(Clone, Copy, Debug, PartialEq, Eq)]
pub enum Refusal {
    Block = 1,
    Short = 6,
    Spoiled = 7,
}

// Each crate that refuses has such an impl: no macro of ours may write one.
impl From<Refusal> for u8 {
    ghost from_gives = { λ refusal number. number ≡ refusal_number refusal };

    fn from(refusal: Refusal) -> u8 {
        refusal as u8
    }
}

// A block's service and check bits.
pub const OVERHEAD: usize = 20;

// The synchronising block's service bits, and its last sixteen bits: bits on the line, and no enum, since any may arrive.
pub const SYNC: u8 = 0b0101;

pub const SEQUENCE: u16 = 0b0101000010100101;

#[derive(Clone, Copy, Debug, PartialEq, Eq)]
pub enum Read {
    // The service bits of a block that passes.
    Passed(u8),
    // The remainder of one that fails.
    Failed(u16),
}

impl Read {
    // The remainder of a block that fails, 0 of one that passes: no Option, since who asks has seen that it failed.
    pub fn remainder(self) -> u16
        ensures { result ≡ carried_remainder (done (verdict_of self)) }
    {
        match self {
            Read::Passed(_) => 0,
            Read::Failed(remainder) => remainder,
        }
    }
}

// The look-up: the number of data bytes of k data bits, if k is one of the four.
pub fn look_up(k: usize) -> Result<usize, Refusal>
    ensures { LookUp k result }
{
    match k {
        240 => Ok(30),
        480 => Ok(60),
        960 => Ok(120),
        3840 => Ok(480),
        _ => Err(Refusal::Block),
    }
}

// Whether k is one of the four numbers of data bits.
pub fn known_length(k: usize) -> bool
    ensures { result ≡ is_length k }
{
    look_up(k).is_ok()
}

// Whether a slice holds fewer bits than these.
pub fn too_short(s: &[u8], bits: usize) -> bool
    ensures { result ≡ too_short s.now bits }
{
    s.len() < bits.div_ceil(8)
}

// The byte at a place, or 0 behind the last: no Option, since to both callers zeros stand there.
pub fn byte_at(s: &[u8], i: usize) -> u8
    ensures { result ≡ get_or s.now i 0 }
{
    s.get(i).copied().unwrap_or(0)
}

// Each call by k is the look-up and a call below it. One function that takes the call below would have these two lines for
// its own.

// One block built: service bits, k data bits and their check. Refused in the order 1, 7, 6.
pub fn build_block(k: usize, service: u8, payload: &[u8], block: &mut [u8]) -> Result<(), Refusal>
    ensures { BuildBlock k service payload.now block.old result block.new }
{
    let m = look_up(k)?;
    packed::build(m, service, payload, block)
}

// The check bits received: the low half of a byte, a byte, and the high half of a third.
pub fn received_check(a: u8, b: u8, c: u8) -> u16
    ensures { binary 16 result ≡ binary 4 a ++ (binary 8 b ++ binary 4 (c / 16)) }
{
    ((a & 15) as u16) << 12 | (b as u16) << 4 | (c >> 4) as u16
}

// One block checked; nothing is written. Refused in the order 1, 6.
pub fn check_block(k: usize, block: &[u8]) -> Result<u16, Refusal>
    ensures { CheckBlock k block.now result }
{
    packed::check(look_up(k)?, block)
}

// One block read without its data. Refused in the order 1, 6.
pub fn read_service(k: usize, block: &[u8]) -> Result<Read, Refusal>
    ensures { ReadService k block.now result }
{
    let m = look_up(k)?;
    packed::read_service(m, block)
}

// The first m data bytes of a packed block moved, whatever its check. Refused 6.
pub fn move_data(m: usize, block: &[u8], payload: &mut [u8]) -> Result<(), Refusal>
    ensures { MoveData m block.now payload.old result payload.new }
{
    if block.len() <= m {
        return Err(Refusal::Short);
    }
    if payload.len() < m {
        return Err(Refusal::Short);
    }
    shift_half(m, block, payload);
    Ok(())
}

// One block read: both slices judged, then the check; the data are moved if it passes. Refused in the order 1, 6.
pub fn read_block(k: usize, block: &[u8], payload: &mut [u8]) -> Result<Read, Refusal>
    ensures { ReadBlock k block.now payload.old result payload.new }
{
    let m = look_up(k)?;
    packed::read(m, block, payload)
}

// The synchronising block. Refused in the order 1, 6.
pub fn synchronising_block(k: usize, block: &mut [u8]) -> Result<(), Refusal>
    ensures { BuildSync k block.old result block.new }
{
    let m = look_up(k)?;
    packed::synchronising(m, block)
}

// A packed block cancelled: its last bit inverted, the spare bits as they were. Refused in the order 1, 6.
pub fn cancel_block(k: usize, block: &mut [u8]) -> Result<(), Refusal>
    ensures { CancelBlock k block.old result block.new }
{
    let m = look_up(k)?;
    packed::cancel(m, block)
}
