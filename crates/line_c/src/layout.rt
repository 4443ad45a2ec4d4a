// What the two states' layouts share: numbers of four bytes, the lowest first, the first 16 bytes, and the marks at the end.
ghost use Rattle.std.specs.Prelude.{◌≡◌, ◌++◌, ◌+◌, ◌≤◌, length, drop, get_or};
ghost use Rattle.std.specs.Bool.{OnTrue};
ghost use Rattle.std.proofs.lemmas.List.Edits.{sets};
ghost use Rattle.line_c.specs.State.{word_at, word_bytes, head_size, marks_size, marks_in, marks_bytes, holds};

use line::marks::Marks;

pub(crate) const HEAD_SIZE: usize = 16;

pub(crate) const MARKS_SIZE: usize = 2;

// The number in the four bytes from place at on.
#[tactic(auto, unfolding(crate::specs::State::word_at))]
pub(crate) fn load_word(s: &[u8], at: usize) -> usize
    requires { at + 4 ≤ length s.now }
    ensures { result ≡ word_at s.now at }
{
    u32::from_le_bytes([s[at], s[at + 1], s[at + 2], s[at + 3]]) as usize
}

// The low four bytes of a number, from place at on.
fn store_word(s: &mut [u8], at: usize, n: usize)
    requires { at + 4 ≤ length s.old }
    ensures { s.new ≡ sets s.old at (word_bytes n) }
{
    s[at..at + 4].copy_from_slice(&n.to_le_bytes()[..4]);
}

// Whether there are size bytes, those at 13, 14 and 15 are at most these, and the marks' flag at most 1.
#[tactic(auto, unfolding(crate::specs::State::holds))]
pub(crate) fn holds_state(size: usize, most: [u8; 3], s: &[u8]) -> bool
    requires { head_size ≤ size }
    ensures held { result ≡ holds size (get_or most 0 0) (get_or most 1 0) (get_or most 2 0) s.now }
    ensures enough { OnTrue result (size ≤ length s.now) }
{
    size <= s.len()
        && s[13] <= most[0]
        && s[14] <= most[1]
        && s[15] <= most[2]
        && s[size - MARKS_SIZE] <= 1
}

// Three numbers of four bytes, over the first bytes of s.
#[tactic(auto, unfolding(crate::specs::State::word_bytes))]
pub(crate) fn store_words(words: [usize; 3], s: &mut [u8])
    requires { 12 ≤ length s.old }
    ensures { s.new ≡ sets s.old 0 (word_bytes (get_or words 0 0) ++ (word_bytes (get_or words 1 0) ++ word_bytes (get_or words 2 0))) }
{
    store_word(s, 0, words[0]);
    store_word(s, 4, words[1]);
    store_word(s, 8, words[2]);
}

// The marks from place at on.
#[tactic(auto, unfolding(crate::specs::State::marks_in))]
pub(crate) fn load_marks(s: &[u8], at: usize) -> Marks
    requires { at + marks_size ≤ length s.now }
    ensures { result ≡ marks_in s.now at }
{
    Marks {
        in_use: s[at] == 1,
        size: s[at + 1],
    }
}

#[tactic(auto, unfolding(crate::specs::State::marks_bytes), using(crate::proofs::Flags::from_bool_flag))]
pub(crate) fn store_marks(s: &mut [u8], at: usize, marks: Marks)
    requires { at + marks_size ≤ length s.old }
    ensures { s.new ≡ sets s.old at (marks_bytes marks) }
{
    s[at] = u8::from(marks.in_use);
    s[at + 1] = marks.size;
}
