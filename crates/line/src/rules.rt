// Rule 1, and rules 3 to 7: what a finished block comes to, and what one whose check passes.
ghost use Rattle.std.specs.Prelude.{◌≡◌, ◌&&◌, ◌-◌, ◌*◌, ◌≤◌, leb, length, take, drop};
ghost use Rattle.crc.specs.Bits.{number, bits_of};
ghost use Rattle.block.specs.Lengths.{block_length};
ghost use Rattle.block.specs.Block.{payload_of};
ghost use Rattle.line.specs.Order.{longest_order, is_letter};
ghost use Rattle.line.specs.Receiving.{or_wait, looks_sync, is_of, place, place_rule, makes_items, end_rule, mark_rule, service_rule};
ghost use Rattle.line.specs.Code.ReceiveSteps.{rule_of};

use crate::head::Checked;
use crate::marks::is_mark;
use crate::order::{
    END, LETTER_A, LETTER_B, LETTER_C, LONGEST_ORDER, MOST_ITEMS, VERSION, item_count, letter,
};
use block::{SEQUENCE, SYNC};

#[derive(Clone, Copy)]
pub(crate) enum Rule {
    Accepts,
    Previous,
    OutOfSequence,
    // With the order's length in bits.
    Ends(usize),
    WrongLength,
    EndsAgain,
    AnythingElse,
    // Accepts or Ends, and the machine is not ready.
    Waits,
}

impl Rule {
    // After the judging: what the machine's readiness makes of a rule.
    pub(crate) fn or_wait(self, ready: bool) -> Rule
        ensures { rule_of result ≡ or_wait ready (rule_of self) }
    {
        match self {
            Rule::Accepts | Rule::Ends(_) if !ready => Rule::Waits,
            _ => self,
        }
    }
}

#[tactic(auto, unfolding(crate::specs::Order::is_letter))]
fn is_letter(service: u8) -> bool
    ensures { result ≡ is_letter service }
{
    matches!(service, LETTER_A | LETTER_B | LETTER_C)
}

// The length that an end block's data give.
fn end_length(payload: &[u8; 5]) -> usize
    ensures { result ≡ number (take 32 (drop 8 (bits_of payload.now))) }
{
    u32::from_be_bytes([payload[1], payload[2], payload[3], payload[4]]) as usize
}

// Inlined, each: a call would hand over the whole head.
impl Checked {
    // The service bits of item i; with marks any of the four is item 0's.
    #[tactic(auto, unfolding(crate::specs::Receiving::is_of))]
    #[inline(always)]
    fn is_of(self, i: usize, service: u8) -> bool
        ensures { result ≡ is_of self.head.setup.marks.in_use i service }
    {
        if !self.head.setup.marks.in_use {
            return service == letter(i);
        }
        if i == 0 {
            return is_mark(service);
        }
        service == letter(i - 1)
    }

    // The service bits of the item before.
    #[inline(always)]
    fn is_last(self, service: u8) -> bool
        ensures { result ≡ (leb 1 self.head.taken && is_of self.head.setup.marks.in_use (self.head.taken - 1) service) }
    {
        self.head.taken != 0 && self.is_of(self.head.taken - 1, service)
    }

    // A letter or a mark, the end not taken.
    #[tactic(auto, unfolding(crate::specs::Receiving::place))]
    #[inline(always)]
    fn place_rule(self, service: u8) -> Rule
        ensures { rule_of result ≡ place_rule self.head.taken (place self.head.setup.marks.in_use self.head.taken service) }
    {
        let taken = self.head.taken;
        if self.is_of(taken, service) {
            if taken < MOST_ITEMS {
                return Rule::Accepts;
            }
            return Rule::AnythingElse;
        }
        if self.is_last(service) {
            return Rule::Previous;
        }
        if self.is_of(taken + 1, service) {
            return Rule::OutOfSequence;
        }
        Rule::AnythingElse
    }

    #[inline(always)]
    fn makes_items(self, bits: usize) -> bool
        requires { bits ≤ longest_order }
        ensures { result ≡ makes_items self.head.setup.k bits self.head.taken }
    {
        item_count(self.head.setup.k, bits) == self.head.taken
    }

    #[tactic(auto, unfolding(crate::specs::Receiving::end_rule))]
    #[inline(always)]
    fn end_rule(self, payload: &[u8; 5]) -> Rule
        ensures { rule_of result ≡ end_rule self.head.setup.k self.head.taken self.head.ended (bits_of payload.now) }
    {
        if self.head.ended {
            return Rule::EndsAgain;
        }
        if payload[0] != VERSION {
            return Rule::WrongLength;
        }
        let bits = end_length(payload);
        if bits != 0 && bits <= LONGEST_ORDER && self.makes_items(bits) {
            return Rule::Ends(bits);
        }
        Rule::WrongLength
    }

    // No letter and no end block.
    #[tactic(auto, unfolding(crate::specs::Receiving::mark_rule))]
    #[inline(always)]
    fn mark_rule(self, service: u8) -> Rule
        ensures { rule_of result ≡ mark_rule self.head.setup.marks.in_use self.head.taken self.head.ended service }
    {
        if self.head.setup.marks.in_use && is_mark(service) && !self.head.ended {
            return self.place_rule(service);
        }
        Rule::AnythingElse
    }

    // Rule 1: first four bits 0101, last sixteen the sequence.
    #[inline(always)]
    pub(crate) fn looks_sync(self, row: &[u8]) -> bool
        requires { block_length self.head.setup.k ≤ 8 * length row.now }
        ensures { result ≡ looks_sync self.head.setup.k (take (block_length self.head.setup.k) (bits_of row.now)) }
    {
        let m = self.head.setup.k / 8;
        row[0] >> 4 == SYNC && block::received_check(row[m], row[m + 1], row[m + 2]) == SEQUENCE
    }

    // By the service bits; of an end block's data the version and the length are moved out.
    #[tactic(auto, unfolding(crate::specs::Receiving::service_rule))]
    #[inline(always)]
    pub(crate) fn service_rule(self, service: u8, row: &[u8]) -> Rule
        requires { block_length self.head.setup.k ≤ 8 * length row.now }
        ensures { rule_of result ≡ service_rule self.head.setup.marks.in_use self.head.setup.k self.head.taken self.head.ended service (payload_of self.head.setup.k (take (block_length self.head.setup.k) (bits_of row.now))) }
    {
        if is_letter(service) {
            if self.head.ended {
                return Rule::OutOfSequence;
            }
            return self.place_rule(service);
        }
        if service == END {
            let mut payload = [0u8; 5];
            block::move_data(5, row, &mut payload).unwrap();
            return self.end_rule(&payload);
        }
        self.mark_rule(service)
    }
}
