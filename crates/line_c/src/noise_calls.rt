// The noise load's call. The generator's two words go in and out.
ghost use Rattle.std.specs.Prelude.{◌≡◌, ◌≤◌};
ghost use Rattle.line_c.specs.NoiseCalls.{report_word, NoiseCall};

use crate::sender_calls::flag;
use noise::{Generator, Noise};

// What the call returns where it is not refused: NOISE, with a flag and the number of bits inverted times INVERTED.
pub const NOISE: u32 = 0x100;

pub const TURNED: u32 = 0x200;

pub const INVERTED: u32 = 0x10000;

fn noise_word(noise: Noise) -> u32
    requires { noise.inverted ≤ 16 }
    ensures { result ≡ report_word noise.inverted noise.turned }
{
    NOISE + flag(noise.turned, TURNED) + noise.inverted * INVERTED
}

#[unsafe(no_mangle)]
pub extern "C" fn order_line_noise(
    k: usize,
    first: &mut u32,
    second: &mut u32,
    block: &mut [u8],
) -> u32
    ensures { NoiseCall k first.old second.old block.old result first.new second.new block.new }
{
    let mut generator = Generator {
        first: *first,
        second: *second,
    };
    match generator.load(k, block) {
        Ok(noise) => {
            *first = generator.first;
            *second = generator.second;
            noise_word(noise)
        }
        Err(refusal) => u32::from(u8::from(refusal)),
    }
}
