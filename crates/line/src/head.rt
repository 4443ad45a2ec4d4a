// The receiving end in place: a state's array is lent, its other fields, the head, are handed over and back.
ghost use Rattle.std.specs.Prelude.{◌≡◌, true, false, not, ◌||◌, List, [], ◌++◌, ℕ, ◌+◌, ◌*◌, ◌≤◌, ◌<◌, leb, length, take};
ghost use Rattle.crc.specs.Bits.{binary, bits_of};
ghost use Rattle.block.specs.Lengths.{is_length, block_length};
ghost use Rattle.block.specs.Calls.{too_short};
ghost use Rattle.line.specs.Order.{most_items};
ghost use Rattle.line.specs.Receiving as S;
ghost use Rattle.line.specs.Receiving.{zero_array, last_bad, held_in_range, receiver_in_range};
ghost use Rattle.line.specs.ReceivingInPlace.{with_array, ReceiveInPlace};
ghost use Rattle.line.specs.Code.ReceiveSteps.{rule_of, step_with, stepped, handed_back, judged, turned_away, Handed};

use crate::Refusal;
use crate::hold::put_bits;
use crate::order::MOST_ITEMS;
use crate::receiving::{ARRAY_SIZE, Event, Line, Phase, Received, Setup};
use crate::rules::Rule;
use crate::window::{Window, bit_at};
use block::{OVERHEAD, Read, packed, too_short};

// The eighth bad block in a row starts a search.
const LAST_BAD: usize = 8;

// A receiver without its array.
#[derive(Clone, Copy)]
pub struct Head {
    pub setup: Setup,
    pub held: usize,
    pub bad_row: usize,
    pub back: bool,
    pub taken: usize,
    pub ended: bool,
    pub phase: Phase,
}

// A head in range, the marks apart: every other is turned away before its bits are read.
#[derive(Clone, Copy)]
pub(crate) struct Checked {
    pub head: Head,
    ghost known: { is_length head.setup.k ≡ true },
    ghost bad_row: { head.bad_row < last_bad },
    ghost items: { head.taken ≤ most_items },
    ghost held: { held_in_range head.phase (block_length head.setup.k) head.held ≡ true },
}

// A receiver's step without its array.
#[derive(Clone, Copy)]
pub struct HeadStep {
    pub head: Head,
    pub answer: Result<Received, Refusal>,
}

impl Head {
    // Every field within its range.
    #[tactic(auto, unfolding(crate::specs::Receiving::receiver_in_range))]
    pub fn in_range(self) -> bool
        ensures { (array : List ℕ) → result ≡ receiver_in_range (with_array self array) }
    {
        block::known_length(self.setup.k)
            && self.setup.marks.in_range()
            && self.bad_row < LAST_BAD
            && self.taken <= MOST_ITEMS
            && self.holds_in_range()
    }

    // The bits held: in search a window's, else fewer than a block's.
    fn holds_in_range(self) -> bool
        requires { is_length self.setup.k ≡ true }
        ensures { result ≡ held_in_range self.phase (block_length self.setup.k) self.held }
    {
        match self.phase {
            Phase::Search => self.held <= 15,
            _ => self.held < self.setup.k + OVERHEAD,
        }
    }

    fn refused(self, refusal: Refusal) -> HeadStep
        ensures { result ≡ turned_away self refusal }
    {
        HeadStep {
            head: self,
            answer: Err(refusal),
        }
    }

    // This head, an event and the bits used.
    fn reports(self, event: Event, bits: usize) -> HeadStep
        ensures { (array : List ℕ) → step_with result array ≡ stepped (with_array self array) event bits }
    {
        HeadStep {
            head: self,
            answer: Ok(Received { event, bits }),
        }
    }

    // This head after an event, with nothing held, and the event.
    fn after(self, array: &mut [u8; ARRAY_SIZE], event: Event, used: usize) -> HeadStep
        ensures { step_with result array.new ≡ stepped (with_array self zero_array) event used }
    {
        *array = [0; ARRAY_SIZE];
        self.reports(event, used)
    }

    // In step with return 0.
    fn after_good(
        self,
        array: &mut [u8; ARRAY_SIZE],
        taken: usize,
        ended: bool,
        event: Event,
        used: usize,
    ) -> HeadStep
        ensures { step_with result array.new ≡ stepped (S.after_good (with_array self array.old) taken ended) event used }
    {
        let next = Head {
            held: 0,
            bad_row: 0,
            back: false,
            taken,
            ended,
            phase: Phase::InStep,
            ..self
        };
        next.after(array, event, used)
    }

    // With return 1, the bad row cleared: an alarm, a search's start, or a wait.
    fn return_one(
        self,
        array: &mut [u8; ARRAY_SIZE],
        phase: Phase,
        event: Event,
        used: usize,
    ) -> HeadStep
        ensures { step_with result array.new ≡ stepped (S.alarmed (with_array self array.old) phase) event used }
    {
        let next = Head {
            held: 0,
            bad_row: 0,
            back: true,
            phase,
            ..self
        };
        next.after(array, event, used)
    }

    // The search's window back in the array's first two bytes.
    fn hold_window(self, array: &mut [u8; ARRAY_SIZE], window: Window, used: usize) -> HeadStep
        ensures { step_with result array.new ≡ stepped (S.searching (with_array self array.old) (binary window.held window.number)) Event.None used }
    {
        array[..2].copy_from_slice(&window.store());
        let next = Head {
            held: window.held,
            back: true,
            ..self
        };
        next.reports(Event::None, used)
    }

    // Search: bit by bit, up to the sequence's end or to the last.
    fn search(self, array: &mut [u8; ARRAY_SIZE], line: Line) -> HeadStep
        requires { self.held ≤ 15 }
        ensures { step_with result array.new ≡ handed_back (S.search (with_array self array.old) (S.held_bits (with_array self array.old)) (take line.entry.bits (bits_of line.entry.bytes.now)) 0) }
    {
        let mut window = Window::load(self.held, [array[0], array[1]]);
        for used in 0..line.bits {
            let next = bit_at(line.bytes, used);
            if window.ends_sequence(next) {
                return self.after_good(array, self.taken, self.ended, Event::Sync, used + 1);
            }
            window = window.slide(next);
        }
        self.hold_window(array, window, line.bits)
    }

    // A standing alarm: all bits used.
    fn under_alarm(self, alarm: Event, bits: usize) -> HeadStep
        ensures { (array : List ℕ) → step_with result array ≡ stepped (S.under_alarm (with_array self array)) alarm bits }
    {
        let next = Head {
            bad_row: 0,
            back: true,
            ..self
        };
        next.reports(alarm, bits)
    }

    // No bits: nothing changed, but a standing alarm is reported.
    fn idle(self) -> HeadStep
        ensures { (array : List ℕ) → step_with result array ≡ handed_back (S.idle (with_array self array)) }
    {
        match self.phase {
            Phase::Search | Phase::InStep => self.reports(Event::None, 0),
            Phase::SequenceAlarm => self.reports(Event::SequenceAlarm, 0),
            Phase::LengthAlarm => self.reports(Event::LengthAlarm, 0),
        }
    }

    // The next event among these bits of a line, with the number of them used; an accepted block's data go to the store. Where
    // these bits complete a block, ready says whether the machine can take it. The array is a slice here, since
    // `order_line_receive` lends a part of a state.
    pub fn receive(
        self,
        array: &mut [u8],
        line: &[u8],
        bits: usize,
        ready: bool,
        store: &mut [u8],
    ) -> HeadStep
        ensures { ReceiveInPlace self array.old line.now bits ready store.old result array.new store.new }
    {
        let Some(array) = array.as_mut_array() else {
            return self.refused(Refusal::Spoiled);
        };
        if !self.in_range() {
            return self.refused(Refusal::Spoiled);
        }
        if too_short(line, bits) {
            return self.refused(Refusal::Short);
        }
        let line = Line { bytes: line, bits };
        Checked { head: self }.read(array, line, ready, store)
    }
}

// A finished block's row comes with a clause on its length and no type: a struct would be one more loan in each clause. Nor do
// array, ready and store make one: they are the caller's, each by itself.
impl Checked {
    // A bad block with its remainder; lost where rule 7 goes back to search.
    fn after_bad(
        self,
        array: &mut [u8; ARRAY_SIZE],
        remainder: u16,
        lost: bool,
        used: usize,
    ) -> HeadStep
        ensures { step_with result array.new ≡ stepped (S.after_bad (with_array self.head array.old) (leb S.last_bad (self.head.bad_row + 1) || lost)) (Event.Bad remainder) used }
    {
        let head = self.head;
        let bad_row = head.bad_row + 1;
        let bad = Event::Bad(remainder);
        if LAST_BAD <= bad_row || lost {
            return head.return_one(array, Phase::Search, bad, used);
        }
        let next = Head {
            held: 0,
            bad_row,
            back: true,
            phase: Phase::InStep,
            ..head
        };
        next.after(array, bad, used)
    }

    // What a rule comes to, the store apart.
    fn stop(self, array: &mut [u8; ARRAY_SIZE], rule: Rule, used: usize) -> HeadStep
        ensures { step_with result array.new ≡ handed_back (S.stops (with_array self.head array.old) (rule_of rule) [] used) }
    {
        let head = self.head;
        let taken = head.taken;
        let ended = head.ended;
        match rule {
            Rule::Accepts => head.after_good(array, taken + 1, ended, Event::Accepted, used),
            Rule::Previous => head.after_good(array, taken, ended, Event::Previous, used),
            Rule::OutOfSequence => head.return_one(
                array,
                Phase::SequenceAlarm,
                Event::SequenceAlarm,
                used,
            ),
            Rule::Ends(bits) => head.after_good(array, taken, true, Event::Ended(bits), used),
            Rule::WrongLength => head.return_one(
                array,
                Phase::LengthAlarm,
                Event::LengthAlarm,
                used,
            ),
            Rule::EndsAgain => head.after_good(array, taken, ended, Event::Previous, used),
            Rule::AnythingElse => self.after_bad(array, 0, taken == 0, used),
            Rule::Waits => head.return_one(array, Phase::InStep, Event::Wait, used),
        }
    }

    // Whether the store has room for the next item.
    fn has_room(self, store: &[u8]) -> bool
        ensures { result ≡ not (too_short store.now (self.head.taken * self.head.setup.k + self.head.setup.k)) }
    {
        let m = self.head.setup.k / 8;
        self.head.taken * m + m <= store.len()
    }

    // Rule 3: the data straight to their place in the store, which has room, and the state after.
    fn store_item(
        self,
        array: &mut [u8; ARRAY_SIZE],
        row: &[u8],
        used: usize,
        store: &mut [u8],
    ) -> HeadStep
        requires { (block_length self.head.setup.k ≤ 8 * length row.now) × (too_short store.old (self.head.taken * self.head.setup.k + self.head.setup.k) ≡ false) }
        ensures { Handed (with_array self.head array.old) store.old (S.stops (with_array self.head array.old) S.accepts (take (block_length self.head.setup.k) (bits_of row.now)) used) (step_with result array.new) store.new }
    {
        let m = self.head.setup.k / 8;
        let start = self.head.taken * m;
        block::move_data(m, row, &mut store[start..start + m]).unwrap();
        self.stop(array, Rule::Accepts, used)
    }

    // A block that passes, by its rule.
    fn take(
        self,
        array: &mut [u8; ARRAY_SIZE],
        rule: Rule,
        row: &[u8],
        used: usize,
        store: &mut [u8],
    ) -> HeadStep
        requires { block_length self.head.setup.k ≤ 8 * length row.now }
        ensures { Handed (with_array self.head array.old) store.old (S.stops (with_array self.head array.old) (rule_of rule) (take (block_length self.head.setup.k) (bits_of row.now)) used) (step_with result array.new) store.new }
    {
        match rule {
            Rule::Accepts => {
                if !self.has_room(store) {
                    return self.head.refused(Refusal::Short);
                }
                self.store_item(array, row, used, store)
            }
            _ => self.stop(array, rule, used),
        }
    }

    // By the rules in their order: rule 1, the check, then the rules of a block that passes, which may wait.
    fn judge(
        self,
        array: &mut [u8; ARRAY_SIZE],
        row: &[u8],
        used: usize,
        ready: bool,
        store: &mut [u8],
    ) -> HeadStep
        requires { block_length self.head.setup.k ≤ 8 * length row.now }
        ensures { Handed (with_array self.head array.old) store.old (judged (with_array self.head array.old) (take (block_length self.head.setup.k) (bits_of row.now)) ready used) (step_with result array.new) store.new }
    {
        let head = self.head;
        if self.looks_sync(row) {
            return head.after_good(array, head.taken, head.ended, Event::Sync, used);
        }
        let answer = packed::read_service(head.setup.k / 8, row).unwrap();
        let Read::Passed(service) = answer else {
            return self.after_bad(array, answer.remainder(), false, used);
        };
        let rule = self.service_rule(service, row).or_wait(ready);
        self.take(array, rule, row, used, store)
    }

    // The block's last bits have come. A block that stands whole in the line is judged there; and the array stays as it
    // is where the store is refused, so the others are finished in a copy.
    fn finish(
        self,
        array: &mut [u8; ARRAY_SIZE],
        line: Line,
        ready: bool,
        store: &mut [u8],
    ) -> HeadStep
        requires { self.head.held + line.bits ≡ block_length self.head.setup.k }
        ensures { Handed (with_array self.head array.old) store.old (judged (with_array self.head array.old) (S.held_bits (with_array self.head array.old) ++ take line.entry.bits (bits_of line.entry.bytes.now)) ready line.entry.bits) (step_with result array.new) store.new }
    {
        if self.head.held == 0 {
            return self.judge(array, line.bytes, line.bits, ready, store);
        }
        let mut row = *array;
        put_bits(&mut row, self.head.held, line);
        self.judge(array, &row, line.bits, ready, store)
    }

    // In step: the bits up to the block's end, or to the last.
    fn in_step(
        self,
        array: &mut [u8; ARRAY_SIZE],
        line: Line,
        ready: bool,
        store: &mut [u8],
    ) -> HeadStep
        requires { self.head.held < block_length self.head.setup.k }
        ensures { Handed (with_array self.head array.old) store.old (S.in_step (with_array self.head array.old) (take line.entry.bits (bits_of line.entry.bytes.now)) ready) (step_with result array.new) store.new }
    {
        let head = self.head;
        let missing = head.setup.k + OVERHEAD - head.held;
        if missing <= line.bits {
            let rest = Line {
                bytes: line.bytes,
                bits: missing,
            };
            return self.finish(array, rest, ready, store);
        }
        put_bits(array, head.held, line);
        let next = Head {
            held: head.held + line.bits,
            ..head
        };
        next.reports(Event::None, line.bits)
    }

    // The bits of a line up to the next event, or to the last. The array, the readiness and the store are no struct: a call
    // writes through two of them, and its clauses say of each what it was and what it became.
    fn read(
        self,
        array: &mut [u8; ARRAY_SIZE],
        line: Line,
        ready: bool,
        store: &mut [u8],
    ) -> HeadStep
        ensures { Handed (with_array self.head array.old) store.old (S.reception (with_array self.head array.old) (take line.entry.bits (bits_of line.entry.bytes.now)) line.entry.bits ready) (step_with result array.new) store.new }
    {
        if line.bits == 0 {
            return self.head.idle();
        }
        // No table of steps: the match says what each phase is lent.
        match self.head.phase {
            Phase::Search => self.head.search(array, line),
            Phase::InStep => self.in_step(array, line, ready, store),
            Phase::SequenceAlarm => self.head.under_alarm(Event::SequenceAlarm, line.bits),
            Phase::LengthAlarm => self.head.under_alarm(Event::LengthAlarm, line.bits),
        }
    }
}
