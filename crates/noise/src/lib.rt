// The noise load: the same rough line on every visit. For a bench; no end of the line calls it.
#![tactic(auto)]

ghost use Rattle.std.specs.Prelude.{◌≡◌, ◌+◌, ◌/◌, ◌≤◌, true, false, length, Ok};
ghost use Rattle.block.specs.Answer.{done};
ghost use Rattle.block.specs.Lengths.{is_length, block_length};
ghost use Rattle.block.specs.Calls.{too_short};
ghost use Rattle.noise.specs.Generator.{next_first, Draw};
ghost use Rattle.noise.specs.Load.{refusal_number, load, span_load, LoadedAs, LoadBlock};
ghost use Rattle.noise.specs.Code.{laid};

use block::{known_length, too_short};

// Why the load turns a call away, each with its number; docs/PROTOCOL.md, "What the ends turn away".
#[derive(Clone, Copy, Debug, PartialEq, Eq)]
pub enum Refusal {
    Block = 1,
    Short = 6,
    Generator = 13,
}

// Each crate that refuses has such an impl: no macro of ours may write one.
impl From<Refusal> for u8 {
    ghost from_gives = { λ refusal number. number ≡ refusal_number refusal };

    fn from(refusal: Refusal) -> u8 {
        refusal as u8
    }
}

// What the second word grows by.
const GROWTH: u32 = 362437;

// A damaged span's adjacent bits.
const SPAN: usize = 16;

// Two words of 32 bits; the first is not 0.
#[derive(Clone, Copy, Debug, PartialEq, Eq)]
pub struct Generator {
    pub first: u32,
    pub second: u32,
}

#[derive(Clone, Copy, Debug, PartialEq, Eq)]
pub struct Noise {
    // The number of bits inverted in the block.
    pub inverted: u32,
    // The reading is turned over at the next period's sending call.
    pub turned: bool,
}

// ---- the generator

// The first word's next value: each line is on the value of the one before.
#[tactic(auto, unfolding(crate::specs::Generator::next_first, crate::specs::Generator::xor_left, crate::specs::Generator::xor_right))]
fn next_first(x: u32) -> u32
    ensures { result ≡ next_first x }
{
    let a = x ^ x << 13;
    let b = a ^ a >> 17;
    b ^ b << 5
}

impl Generator {
    // One draw: both words updated, and their sum.
    #[tactic(auto, unfolding(crate::specs::Generator::next, crate::specs::Generator::drawn))]
    pub fn draw(&mut self) -> u32
        ensures { Draw self.old result self.new }
    {
        self.first = next_first(self.first);
        self.second = self.second.wrapping_add(GROWTH);
        self.first.wrapping_add(self.second)
    }
}

// ---- the load

// The pattern's ones laid over 16 bits of a slice, the top bit first, from a place on: they reach into three bytes.
fn lay(pattern: u16, place: usize, block: &mut [u8])
    requires { place / 8 + 3 ≤ length block.old }
    ensures { block.new ≡ laid place pattern block.old }
{
    let span = (u32::from(pattern) << (8 - place % 8)).to_be_bytes();
    // By index: of a slice written through a zip of its iter_mut only the length is known.
    for (i, mask) in span[1..].iter().enumerate() {
        block[place / 8 + i] ^= mask;
    }
}

impl Generator {
    // One damaged span, by a second draw.
    fn damage(&mut self, k: usize, block: &mut [u8]) -> Noise
        requires { (is_length k ≡ true) × (too_short block.old (block_length k) ≡ false) }
        ensures { LoadedAs k self.old block.old (done (span_load (block_length k) self.old)) (Ok result) self.new block.new }
    {
        let number = self.draw();
        // No From goes from u32 to u16 or usize.
        let pattern = (number % 65536) as u16;
        let places = k + block::OVERHEAD - (SPAN - 1);
        lay(pattern, (number / 65536) as usize % places, block);
        Noise {
            inverted: pattern.count_ones(),
            turned: false,
        }
    }

    // What the low two bits of a draw choose.
    #[tactic(auto, unfolding(crate::specs::Load::load))]
    fn choose(&mut self, k: usize, block: &mut [u8]) -> Noise
        requires { (is_length k ≡ true) × (too_short block.old (block_length k) ≡ false) }
        ensures { LoadedAs k self.old block.old (done (load (block_length k) self.old)) (Ok result) self.new block.new }
    {
        match self.draw() % 4 {
            2 => self.damage(k, block),
            choice => Noise {
                inverted: 0,
                turned: choice == 3,
            },
        }
    }

    // The noise of one block period, on the block as it was sent. Refused in the order 1, 13, 6.
    #[tactic(auto, unfolding(crate::specs::Load::load_block))]
    pub fn load(&mut self, k: usize, block: &mut [u8]) -> Result<Noise, Refusal>
        ensures { LoadBlock k self.old block.old result self.new block.new }
    {
        if !known_length(k) {
            return Err(Refusal::Block);
        }
        if self.first == 0 {
            return Err(Refusal::Generator);
        }
        if too_short(block, k + block::OVERHEAD) {
            return Err(Refusal::Short);
        }
        Ok(self.choose(k, block))
    }
}
