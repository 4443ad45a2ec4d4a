// The cyclic check of V.41: the register of x^16 + x^12 + x^5 + 1 over bits, bytes and words.
#![tactic(auto)]

ghost use Rattle.std.specs.Prelude.{◌≡◌, [], ◌∷◌, ◌++◌, ◌+◌, ◌-◌, ◌%◌, ◌^◌, ◌≤◌, ◌<◌, length, map, take};
ghost use Rattle.std.specs.Int.{from_be_bytes, w64};
ghost use Rattle.crc.specs.Bits.{binary, bits_of};
ghost use Rattle.crc.specs.Words.{left_by};
ghost use Rattle.crc.specs.Check.{register};

// The steps by four, eight and sixty-four bits have a formula each: one function of any width would take a bit at a time.

// Four bits into the register: the low half of b, its highest bit first.
#[tactic(auto, using(crate::proofs::Basis::nibble_feeds))]
pub fn feed_nibble(c: u16, b: u8) -> u16
    ensures { result ≡ register c (binary 4 b) }
{
    let x = (c >> 12) ^ u16::from(b & 15);
    (c << 4) ^ x ^ (x << 5) ^ (x << 12)
}

// Eight bits into the register, the earliest in the top bit.
#[tactic(auto, using(crate::proofs::Basis::byte_feeds))]
pub fn feed_byte(c: u16, b: u8) -> u16
    ensures { result ≡ register c (binary 8 b) }
{
    let t = (c >> 8) ^ u16::from(b);
    let x = t ^ (t >> 4);
    (c << 8) ^ (x << 12) ^ (x << 5) ^ x
}

// Sixty-four bits into the register, the earliest in the top bit: the quotient by the generator from its powers 8, 4, 2
// and 1, then what the quotient leaves.
#[tactic(auto, using(crate::proofs::Basis::word_feeds))]
pub fn feed_word(c: u16, w: u64) -> u16
    ensures { result ≡ register c (binary 64 w) }
{
    let v = w ^ (u64::from(c) << 48);
    let x = v ^ (v >> 32);
    let y = x ^ (x >> 16) ^ (x >> 44);
    let z = y ^ (y >> 8) ^ (y >> 22) ^ (y >> 32);
    let q = z ^ (z >> 4) ^ (z >> 11) ^ (z >> 16);
    ((q ^ (q << 5) ^ (q << 12)) & 0xffff) as u16
}

// Four words of a row, the earliest first.
type Window = [u64; 4];

// One word more behind a window, whose first word is folded into the four behind it: the generator's 16th power is
// x^256 + x^192 + x^80 + 1. Each fold has its own shifts and number of words, so the three are no one function.
fn fold_four(window: Window, next: u64) -> Window
    ensures { left_by result ≡ left_by (window ++ next ∷ []) }
{
    let [a, b, c, d] = window;
    [b ^ a, c ^ (a >> 48), d ^ (a << 16), next ^ a]
}

// A word folded into the two behind it: the generator's 8th power is x^128 + x^96 + x^40 + 1.
#[tactic(auto, using(crate::proofs::Folding::fold_two))]
fn fold_two(a: u64, b: u64, c: u64) -> [u64; 2]
    ensures { left_by result ≡ left_by (a ∷ b ∷ c ∷ []) }
{
    let v = a ^ (a >> 32);
    [b ^ ((v << 32) ^ (v >> 24)), c ^ (v ^ (v << 40))]
}

// A word folded into the one behind it: the generator's 4th power is x^64 + x^48 + x^20 + 1.
#[tactic(auto, using(crate::proofs::Folding::fold_one))]
fn fold_one(a: u64, b: u64) -> u64
    ensures { left_by (result ∷ []) ≡ left_by (a ∷ b ∷ []) }
{
    let x = a ^ (a >> 32);
    let y = x ^ (x >> 16) ^ (x >> 44);
    b ^ (y ^ (y << 20) ^ (y << 48))
}

// What a window leaves in the register.
fn feed_window(window: Window) -> u16
    ensures { result ≡ left_by window }
{
    let [a, b, c, d] = window;
    let [e, f] = fold_two(a, b, c);
    let [g, h] = fold_two(e, f, d);
    feed_word(0, fold_one(g, h))
}

// Words, each as its eight bytes, folded into a window.
fn fold_words(start: Window, words: &[[u8; 8]]) -> Window
    ensures { left_by result ≡ left_by (start ++ map (from_be_bytes w64) words.now) }
{
    words
        .iter()
        .map(|word| u64::from_be_bytes(*word))
        .fold(start, fold_four)
}

// The first bytes of eight as a word, zeros in front, the register added to their first sixteen bits.
fn load_head(c: u16, bytes: [u8; 8], count: usize) -> u64
    requires { (2 ≤ count) × (count ≤ 8) }
    ensures { left_by (result ∷ []) ≡ register c (bits_of (take count bytes)) }
{
    (u64::from_be_bytes(bytes) ^ (u64::from(c) << 48)) >> (64 - 8 * count)
}

// The bytes of a slice into the register, by words, the first of which holds two to eight of them.
#[inline(always)]
fn feed_words(c: u16, s: &[u8]) -> u16
    requires { (8 ≤ length s.now) × (0 < (length s.now - 1) % 8) }
    ensures { result ≡ register c (bits_of s.now) }
{
    let (head, rest) = s.split_at((s.len() - 1) % 8 + 1);
    let (front, _) = s.as_chunks();
    let (words, _) = rest.as_chunks();
    let first = load_head(c, front[0], head.len());
    feed_window(fold_words([0, 0, 0, first], words))
}

// The bytes of a slice into the register, one by one.
fn feed_singles(c: u16, s: &[u8]) -> u16
    ensures { result ≡ register c (bits_of s.now) }
{
    s.iter().fold(c, |r, b| feed_byte(r, *b))
}

// The bytes of a slice into the register. Fewer than eight go one by one, and so does one that is alone before whole words.
pub fn feed_bytes(c: u16, s: &[u8]) -> u16
    ensures { result ≡ register c (bits_of s.now) }
{
    if s.len() < 8 {
        feed_singles(c, s)
    } else if s.len() % 8 == 1 {
        feed_words(feed_byte(c, s[0]), &s[1..])
    } else {
        feed_words(c, s)
    }
}
