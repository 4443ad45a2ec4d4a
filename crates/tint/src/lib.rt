// The tint order: doses written as bytes, and read back.
#![tactic(auto)]

ghost use Rattle.std.specs.Prelude.{◌≡◌, ◌++◌, ◌*◌, ◌/◌, ◌+◌, ◌≤◌, true, false, length, drop, MatchOption};
ghost use Rattle.block.specs.Answer.{done};
ghost use Rattle.tint.specs.Format.{doses_in, is_format, is_in_range, in_range_and_order, total, judge_doses};
ghost use Rattle.tint.specs.Calls.{refusal_number, doses_of, doses_from, judged_answer, Judge, Write, Read};
ghost use Rattle.tint.specs.Code.{dose_of_entry, head_bytes, low_entry, low_entries};

// Why a call turns its input away, each with its number; docs/PROTOCOL.md, "Tint orders". Short has the crate block's number.
#[derive(Clone, Copy, Debug, PartialEq, Eq)]
pub enum Refusal {
    Short = 6,
    Format = 10,
    Entry = 11,
    Steps = 12,
}

// Each crate that refuses has such an impl: no macro of ours may write one.
impl From<Refusal> for u8 {
    ghost from_gives = { λ refusal number. number ≡ refusal_number refusal };

    fn from(refusal: Refusal) -> u8 {
        refusal as u8
    }
}

// A byte of the format.
pub const FORMAT_VERSION: u8 = 1;

// A canister's number at most, and so the most doses, since they rise by canister.
pub const CANISTERS: usize = 12;

// Of one dose, and of all.
pub const MOST_STEPS: u16 = 4800;

pub const MOST_TOTAL: u32 = 20000;

// Version and length; an entry.
const HEAD_BYTES: usize = 3;

const ENTRY_BYTES: usize = 3;

// So many pump steps of one canister.
#[derive(Clone, Copy, Debug, PartialEq, Eq)]
pub struct Dose {
    pub canister: u16,
    pub steps: u16,
}

// The first count places hold doses; the others do not matter. An array with its count, since no heap is used, and no
// invariant on the count, since `Judge` and `Write` speak of every one: above 12 it is refused.
#[derive(Clone, Copy, Debug)]
pub struct Doses {
    pub count: usize,
    pub list: [Dose; CANISTERS],
}

impl Dose {
    // What stands behind the doses that are held.
    pub const NONE: Dose = Dose {
        canister: 0,
        steps: 0,
    };

    fn is_in_range(self) -> bool
        ensures { result ≡ is_in_range self }
    {
        (1..=CANISTERS).contains(&usize::from(self.canister))
            && (1..=MOST_STEPS).contains(&self.steps)
    }

    // In three bytes; of the canister its low byte.
    fn entry(self) -> [u8; ENTRY_BYTES]
        ensures { result ≡ low_entry self }
    {
        let [_, canister] = self.canister.to_be_bytes();
        let [high, low] = self.steps.to_be_bytes();
        [canister, high, low]
    }

    fn of_entry(entry: &[u8; ENTRY_BYTES]) -> Dose
        ensures { result ≡ dose_of_entry entry.now }
    {
        let [canister, high, low] = *entry;
        Dose {
            canister: u16::from(canister),
            steps: u16::from_be_bytes([high, low]),
        }
    }
}

// At most 12 is a clause of four functions, asked where it was judged, and no invariant: `Judge` speaks of any count.
impl Doses {
    fn held(&self) -> &[Dose]
        requires { self.now.count ≤ 12 }
        ensures { result.now ≡ doses_of self.now }
    {
        &self.list[..self.count]
    }
}

// ---- judging

// Every dose in range, the canisters rising strictly.
fn in_range_and_order(doses: &[Dose]) -> bool
    ensures { result ≡ in_range_and_order 0 doses.now }
{
    let mut last = 0;
    for dose in doses {
        if !dose.is_in_range() || dose.canister <= last {
            return false;
        }
        last = dose.canister;
    }
    true
}

fn total_steps(doses: &[Dose]) -> u32
    requires { length doses.now ≤ 12 }
    ensures { result ≡ total doses.now }
{
    doses.iter().map(|dose| u32::from(dose.steps)).sum()
}

// Every entry, then the total.
#[tactic(auto, unfolding(crate::specs::Format::judge_doses))]
fn judge_doses(doses: &[Dose]) -> Result<(), Refusal>
    ensures { judged_answer result ≡ judge_doses doses.now (done tt) }
{
    if !in_range_and_order(doses) {
        Err(Refusal::Entry)
    } else if MOST_TOTAL < total_steps(doses) {
        Err(Refusal::Steps)
    } else {
        Ok(())
    }
}

// Whether an order of these doses can be written. Refused in the order 10, 11, 12.
#[tactic(auto, unfolding(crate::specs::Calls::judge_counted))]
pub fn judge(doses: Doses) -> Result<(), Refusal>
    ensures { Judge doses result }
{
    match doses.count {
        0 => Err(Refusal::Format),
        1..=CANISTERS => judge_doses(doses.held()),
        _ => Err(Refusal::Entry),
    }
}

// ---- writing

// An entry for each dose, over the first bytes of entries.
fn write_entries(doses: &[Dose], entries: &mut [u8])
    requires { length doses.now * 3 ≤ length entries.old }
    ensures { entries.new ≡ low_entries doses.now ++ drop (length doses.now * 3) entries.old }
{
    // By place: nothing is proved of what is written through `chunks_exact_mut`.
    for (place, dose) in doses.iter().enumerate() {
        let at = place * ENTRY_BYTES;
        entries[at..at + ENTRY_BYTES].copy_from_slice(&dose.entry());
    }
}

// Version, the number of bytes that follow, and the entries.
fn write_order(doses: &[Dose], order: &mut [u8])
    requires { (length doses.now ≤ 12) × (3 + length doses.now * 3 ≤ length order.old) }
    ensures { order.new ≡ (head_bytes (length doses.now * 3) ++ low_entries doses.now) ++ drop (3 + length doses.now * 3) order.old }
{
    let [high, low] = ((doses.len() * ENTRY_BYTES) as u16).to_be_bytes();
    order[..HEAD_BYTES].copy_from_slice(&[FORMAT_VERSION, high, low]);
    write_entries(doses, &mut order[HEAD_BYTES..]);
}

// The order of these doses written over the first bytes of a slice. Refused in the order 10, 11, 12, 6.
#[tactic(auto, using(crate::proofs::Entries::judged_few, crate::proofs::Arrays::length_first_places))]
pub fn write(doses: Doses, order: &mut [u8]) -> Result<usize, Refusal>
    ensures { Write doses order.old result order.new }
{
    judge(doses)?;
    let bytes = HEAD_BYTES + doses.count * ENTRY_BYTES;
    if order.len() < bytes {
        return Err(Refusal::Short);
    }
    write_order(doses.held(), order);
    Ok(bytes)
}

// ---- reading

// The entries, if version and length are right; the length is that of what follows.
fn entries_of(order: &[u8]) -> Option<&[u8]>
    ensures { MatchOption result (is_format order.now ≡ false) (λ entries. (is_format order.now ≡ true) × (entries.now ≡ drop 3 order.now)) }
{
    let [FORMAT_VERSION, high, low, entries @ ..] = order else {
        return None;
    };
    let follow = usize::from(u16::from_be_bytes([*high, *low]));
    if follow == 0 || follow % ENTRY_BYTES != 0 || follow != entries.len() {
        return None;
    }
    Some(entries)
}

// The doses of all entries.
fn load_entries(entries: &[u8]) -> Doses
    requires { length entries.now / 3 ≤ 12 }
    ensures { result ≡ doses_from (doses_in entries.now) }
{
    let (entries, _) = entries.as_chunks::<ENTRY_BYTES>();
    let mut list = [Dose::NONE; CANISTERS];
    for (place, entry) in entries.iter().enumerate() {
        list[place] = Dose::of_entry(entry);
    }
    Doses {
        count: entries.len(),
        list,
    }
}

// The doses of an order; the slice is the whole of it. Refused in the order 10, 11, 12.
pub fn read(order: &[u8]) -> Result<Doses, Refusal>
    ensures { Read order.now result }
{
    let entries = entries_of(order).ok_or(Refusal::Format)?;
    if CANISTERS < entries.len() / ENTRY_BYTES {
        return Err(Refusal::Entry);
    }
    let doses = load_entries(entries);
    judge_doses(doses.held())?;
    Ok(doses)
}
