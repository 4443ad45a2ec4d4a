// The loop-time test and the calls on one block.
ghost use Rattle.line_c.specs.BlockCalls.{LoopTimeCall, BuildBlockCall, ReadBlockCall};

use crate::answer::answer_number;
use block::{Read, build_block, read_block};
use line::loop_time::loop_time;

// What reading a block answers where it is not refused: PASSED and the service bits, or FAILED. The C interface's numbers.
pub const PASSED: u16 = 0x100;

pub const FAILED: u16 = 0x200;

#[unsafe(no_mangle)]
pub extern "C" fn order_line_loop_time(k: usize, speed: u32, loop_ms: u32) -> u8
    ensures { LoopTimeCall k speed loop_ms result }
{
    answer_number(loop_time(k, speed, loop_ms))
}

#[unsafe(no_mangle)]
pub extern "C" fn order_line_build_block(
    k: usize,
    service: u8,
    payload: &[u8],
    block: &mut [u8],
) -> u8
    ensures { BuildBlockCall k service payload.now block.old result block.new }
{
    answer_number(build_block(k, service, payload, block))
}

#[unsafe(no_mangle)]
pub extern "C" fn order_line_read_block(
    k: usize,
    block: &[u8],
    payload: &mut [u8],
    remainder: &mut u16,
) -> u16
    ensures { ReadBlockCall k block.now payload.old remainder.old result payload.new remainder.new }
{
    match read_block(k, block, payload) {
        Ok(Read::Passed(service)) => PASSED + u16::from(service),
        Ok(Read::Failed(found)) => {
            *remainder = found;
            FAILED
        }
        Err(refusal) => u16::from(u8::from(refusal)),
    }
}
