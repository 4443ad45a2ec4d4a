// The packed block of m data bytes, whatever m: built, checked, read and cancelled. No block length is looked up or tested
// here. m stands beside the slices, and no type of ours holds both: a caller's slices may be longer than a block, and each call
// promises the bytes behind it too (`built_bytes`, `read_bytes`, `sync_bytes`, `cancel_bytes`).
ghost use Rattle.std.specs.Prelude.{◌≡◌, cond, ◌++◌, ◌+◌, ◌*◌, ◌≤◌, ◌<◌, eqb, length, take, drop};
ghost use Rattle.crc.specs.Bits.{binary, bits_of, bytes_of};
ghost use Rattle.crc.specs.Check.{remainder};
ghost use Rattle.block.specs.Lengths.{block_length};
ghost use Rattle.block.specs.Block.{block_bits, passed, failed, sync_block};
ghost use Rattle.block.specs.Calls.{verdict_of, too_short, overwritten};
ghost use Rattle.block.specs.Packed.{BuildPacked, CheckPacked, ServicePacked, ReadPacked, SyncPacked, CancelPacked};

use crate::{Read, Refusal, received_check};

// Whether a slice holds fewer bits than a block.
fn short_of_block(m: usize, block: &[u8]) -> bool
    ensures { result ≡ too_short block.now (block_length (8 * m)) }
{
    block.len() < m || block.len() - m < 3
}

// The first m bytes of to become those of from without its first four bits.
pub(crate) fn shift_half(m: usize, from: &[u8], to: &mut [u8])
    requires { (m < length from.now) × (m ≤ length to.old) }
    ensures { to.new ≡ bytes_of m (drop 4 (bits_of from.now)) ++ drop m to.old }
{
    for i in 0..m {
        to[i] = from[i] << 4 | from[i + 1] >> 4;
    }
}

// The service bits and m data bytes behind them, over the first m bytes of block. The four bits that have no byte yet are
// handed over, as the last four of a byte.
fn shift_in(m: usize, service: u8, payload: &[u8], block: &mut [u8]) -> u8
    requires { (m ≤ length payload.now) × (m ≤ length block.old) }
    ensures { (binary 4 result ≡ drop (8 * m) (binary 4 service ++ bits_of (take m payload.now))) × (block.new ≡ overwritten m (binary 4 service ++ bits_of payload.now) block.old) }
{
    if m == 0 {
        return service;
    }
    shift_half(m - 1, payload, &mut block[1..]);
    block[0] = service << 4 | payload[0] >> 4;
    payload[m - 1]
}

// Four bits, the check bits and the four spare bits, over the three bytes from place m on.
fn put_check(m: usize, last: u8, check: u16, block: &mut [u8])
    requires { m + 3 ≤ length block.old }
    ensures { block.new ≡ take m block.old ++ (bytes_of 3 (binary 4 last ++ binary 16 check) ++ drop (m + 3) block.old) }
{
    block[m] = last << 4 | (check >> 12) as u8;
    block[m + 1] = ((check >> 4) & 255) as u8;
    block[m + 2] = ((check & 15) as u8) << 4;
}

// The block over the first m + 3 bytes of a slice.
fn fill_block(m: usize, service: u8, payload: &[u8], block: &mut [u8])
    requires { (m ≤ length payload.now) × (m + 3 ≤ length block.old) }
    ensures { block.new ≡ overwritten (m + 3) (block_bits (binary 4 service) (take (8 * m) (bits_of payload.now))) block.old }
{
    let check = crc::feed_bytes(crc::feed_nibble(0, service), &payload[..m]);
    let last = shift_in(m, service, payload, block);
    put_check(m, last, check, block);
}

// One block built: service bits, data and their check. Refused in the order 7, 6.
pub fn build(m: usize, service: u8, payload: &[u8], block: &mut [u8]) -> Result<(), Refusal>
    ensures { BuildPacked (8 * m) service payload.now block.old result block.new }
{
    if 15 < service {
        return Err(Refusal::Spoiled);
    }
    if payload.len() < m {
        return Err(Refusal::Short);
    }
    if block.len() < m + 3 {
        return Err(Refusal::Short);
    }
    fill_block(m, service, payload, block);
    Ok(())
}

// The remainder of all its bits: the check of its service bits and data, xor the check received.
#[inline(always)]
fn remainder_of(m: usize, block: &[u8]) -> u16
    requires { m + 3 ≤ length block.now }
    ensures { result ≡ remainder (take (8 * m + 20) (bits_of block.now)) }
{
    let check = crc::feed_nibble(crc::feed_bytes(0, &block[..m]), block[m] >> 4);
    check ^ received_check(block[m], block[m + 1], block[m + 2])
}

// One block checked; nothing is written. Refused 6.
pub fn check(m: usize, block: &[u8]) -> Result<u16, Refusal>
    ensures { CheckPacked (8 * m) block.now result }
{
    if short_of_block(m, block) {
        Err(Refusal::Short)
    } else {
        Ok(remainder_of(m, block))
    }
}

// What its remainder makes of a block with these service bits.
fn judged(remainder: u16, service: u8) -> Read
    ensures { verdict_of result ≡ cond (eqb remainder 0) (passed service) (failed remainder) }
{
    if remainder != 0 {
        return Read::Failed(remainder);
    }
    Read::Passed(service)
}

// One block read without its data. Refused 6.
pub fn read_service(m: usize, block: &[u8]) -> Result<Read, Refusal>
    ensures { ServicePacked (8 * m) block.now result }
{
    let remainder = check(m, block)?;
    Ok(judged(remainder, block[0] >> 4))
}

// One block read: both slices judged, then the check; the data are moved if it passes. Refused 6.
pub fn read(m: usize, block: &[u8], payload: &mut [u8]) -> Result<Read, Refusal>
    ensures { ReadPacked (8 * m) block.now payload.old result payload.new }
{
    if payload.len() < m {
        return Err(Refusal::Short);
    }
    if block.len() < m + 3 {
        return Err(Refusal::Short);
    }
    let answer = judged(remainder_of(m, block), block[0] >> 4);
    if let Read::Passed(_) = answer {
        shift_half(m, block, payload);
    }
    Ok(answer)
}

// The synchronising block over the first m + 3 bytes of a slice: 10 repeated, of which the first four bits, the service
// bits, are inverted.
fn fill_sync(m: usize, block: &mut [u8])
    requires { m + 3 ≤ length block.old }
    ensures { block.new ≡ overwritten (m + 3) (sync_block (8 * m)) block.old }
{
    block[..m].fill(0xaa);
    block[m] = 0xa5;
    block[m + 1] = 0x0a;
    block[m + 2] = 0x50;
    block[0] ^= 0xf0;
}

// The synchronising block. Refused 6.
pub fn synchronising(m: usize, block: &mut [u8]) -> Result<(), Refusal>
    ensures { SyncPacked (8 * m) block.old result block.new }
{
    if short_of_block(m, block) {
        return Err(Refusal::Short);
    }
    fill_sync(m, block);
    Ok(())
}

// One block cancelled: its last bit inverted, the spare bits as they were. Refused 6.
pub fn cancel(m: usize, block: &mut [u8]) -> Result<(), Refusal>
    ensures { CancelPacked (8 * m) block.old result block.new }
{
    if short_of_block(m, block) {
        return Err(Refusal::Short);
    }
    block[m + 2] ^= 0x10;
    Ok(())
}
