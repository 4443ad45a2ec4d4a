// The tint order's calls. Doses are a slice of 16-bit numbers, canister and steps in turn.
ghost use Rattle.std.specs.Prelude.{◌≡◌, ◌++◌, ◌*◌, ◌/◌, ◌≤◌, length, drop};
ghost use Rattle.tint.specs.Calls.{refusal_number, doses_from};
ghost use Rattle.line_c.specs.BlockCalls.{refusal};
ghost use Rattle.line_c.specs.TintCalls.{numbers_of, doses_held, judge_held, WriteTintCall, ReadTintCall};

use tint::{CANISTERS, Dose, Doses, Refusal};

// A dose's numbers.
const DOSE_NUMBERS: usize = 2;

// The first count doses. One function for this and the crate tint's `load_entries` would take a closure, and be no shorter.
fn load_doses(count: usize, numbers: &[u16]) -> Doses
    requires { (count ≤ 12) × (count * 2 ≤ length numbers.now) }
    ensures { result ≡ doses_from (doses_held numbers.now count) }
{
    let (pairs, _) = numbers[..count * DOSE_NUMBERS].as_chunks::<DOSE_NUMBERS>();
    let mut list = [Dose::NONE; CANISTERS];
    for (place, pair) in pairs.iter().enumerate() {
        let [canister, steps] = *pair;
        list[place] = Dose { canister, steps };
    }
    Doses {
        count: pairs.len(),
        list,
    }
}

// The numbers of the doses, over the first ones of a slice. One function for this and the crate tint's `write_entries` would take
// what a dose becomes as a closure.
fn store_doses(doses: &[Dose], numbers: &mut [u16])
    requires { length doses.now * 2 ≤ length numbers.old }
    ensures { numbers.new ≡ numbers_of doses.now ++ drop (length doses.now * 2) numbers.old }
{
    // By place: nothing is proved of what is written through `chunks_exact_mut`.
    for (place, dose) in doses.iter().enumerate() {
        let at = place * DOSE_NUMBERS;
        numbers[at] = dose.canister;
        numbers[at + 1] = dose.steps;
    }
}

// What a slice too short for its count is refused by.
fn refuse_short(numbers: &[u16]) -> Refusal
    requires { length numbers.now / 2 ≤ 12 }
    ensures { refusal_number result ≡ refusal (judge_held numbers.now) }
{
    let held = numbers.len() / DOSE_NUMBERS;
    if held == 0 {
        return Refusal::Short;
    }
    match tint::judge(load_doses(held, numbers)) {
        Ok(()) => Refusal::Short,
        Err(refusal) => refusal,
    }
}

#[unsafe(no_mangle)]
pub extern "C" fn order_line_write_tint(
    doses: &[u16],
    count: usize,
    order: &mut [u8],
    bytes: &mut usize,
) -> u8
    ensures { WriteTintCall doses.now count order.old bytes.old result order.new bytes.new }
{
    if CANISTERS < count {
        return Refusal::Entry.into();
    }
    if doses.len() / DOSE_NUMBERS < count {
        return refuse_short(doses).into();
    }
    match tint::write(load_doses(count, doses), order) {
        Ok(written) => {
            *bytes = written;
            0
        }
        Err(refusal) => refusal.into(),
    }
}

#[unsafe(no_mangle)]
pub extern "C" fn order_line_read_tint(order: &[u8], doses: &mut [u16], count: &mut usize) -> u8
    ensures { ReadTintCall order.now doses.old count.old result doses.new count.new }
{
    match tint::read(order) {
        Ok(found) => {
            if doses.len() / DOSE_NUMBERS < found.count {
                return Refusal::Short.into();
            }
            store_doses(&found.list[..found.count], doses);
            *count = found.count;
            0
        }
        Err(refusal) => refusal.into(),
    }
}
