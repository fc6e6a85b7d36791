// Tally: Run, and what it did added to a tally that is lent, 65 numbers (request f of document 02). Run counts while it runs, and adds where
// the counts stand; the file's refusal is added after it. Where some number of the tally is so large that one might pass 32 bits, the file
// is counted apart, and added where nothing passes.
#![tactic(auto)]

ghost use Rattle.std.specs.Prelude.{◌≡◌, ℕ, ◌+◌, ◌%◌, ◌<◌, length, get_or, IsTrue, IfSome, IfNone, true, false};
ghost use Rattle.definitions.specs.Run.{run_report, run_buffer};
ghost use Rattle.season.specs.Tally.{join, numbers, sum, refused_once, fits, file_tally, tally_report, tally_numbers};
ghost use Rattle.season.specs.Season.{gcd, average, average_of};
ghost use Rattle.container.specs.Choice.{ite};

use definitions::{Refusal, Report};
use season::{Average, Tallied};

// The refusal of a file that would take a number past 32 bits.
const FULL: u64 = Refusal::Tally as u64;

// The average of what has none; C is handed 0 over 1 for it, so it is no `None`.
const NO_AVERAGE: Average = Average {
    steps: 0,
    operations: 1,
};

// ---- one file. The tally is C's own array of 65 numbers, here and in each function below.

// One of the refusal, none of 0: the number that the report has for C.
#[tactic(auto, using(crate::proofs::Cases::refusal_one, crate::proofs::Cases::refusal_none))]
fn count_refusal(tally: &mut [u32; 65], bad: u64)
    requires { (bad < 17) × ((bad ≡ 0 → ⊥) → get_or tally.old (48 + bad) 0 < 4294967295) }
    ensures { numbers tally.new ≡ sum (numbers tally.old) (refused_once bad) }
{
    if bad != 0 {
        let i = 48 + bad as usize;
        tally[i] = tally[i] + 1;
    }
}

// Run, with all that its file adds put into the tally that is lent: what Run counts, and the refusal.
fn count_file(schedule: &[u8], rows: &mut [u8], tally: &mut [u32; 65]) -> Report
    requires { (i : ℕ) → get_or tally.old i 0 < 2147483648 }
    ensures { (result ≡ run_report schedule.now (length rows.old)) × ((rows.new ≡ run_buffer schedule.now rows.old)
        × (numbers tally.new ≡ sum (numbers tally.old) (file_tally schedule.now (length rows.old)))) }
{
    let report = run::tallied(schedule, rows, tally);
    count_refusal(tally, report.refusal);
    report
}

// ---- adding

// Whether every number is below 2 ^ 31, by the bits of all together; no file adds 2 ^ 25 to one. All 65 are asked, the largest and the
// refusals too: so the loop has no branch and no place to ask for.
#[tactic(auto, using(crate::proofs::Cases::or_most))]
fn is_roomy(tally: &[u32; 65]) -> bool
    ensures { IsTrue result → (i : ℕ) → get_or tally.now i 0 < 2147483648 }
{
    let mut all = 0u32;
    for &n in tally {
        all = all | n;
    }
    all < 2147483648
}

// Two numbers of place i: their sum, or the larger.
#[tactic(auto, unfolding(season::specs::Tally::join, container::specs::Choice::ite))]
fn joined(i: usize, x: u32, y: u32) -> u64
    ensures { result ≡ join i x y }
{
    if i / 8 == 5 {
        return u64::from(x.max(y));
    }
    u64::from(x) + u64::from(y)
}

// The sum of two tallies, where it keeps within 32 bits. No heap: it is an array, as C's is. By place, for `joined` needs the place:
// `zip` and `enumerate` would be no plainer.
fn added(tally: &[u32; 65], one: &[u32; 65]) -> Option<[u32; 65]>
    ensures some { IfSome result (λ both. (fits (sum (numbers tally.now) (numbers one.now)) ≡ true) × (numbers both ≡ sum (numbers tally.now) (numbers one.now))) }
    ensures none { IfNone result (fits (sum (numbers tally.now) (numbers one.now)) ≡ false) }
{
    let mut both = [0u32; 65];
    for i in 0..65 {
        both[i] = u32::try_from(joined(i, tally[i], one[i])).ok()?;
    }
    Some(both)
}

// That numbers of 32 bits are below 2 ^ 32, for the proof of `tally`: of an array behind a `&mut` the check knows it only where a slice of it
// is passed.
fn words(cells: &[u32])
    ensures { (i : ℕ) → get_or cells.now i 0 < 4294967296 }
{}

// Run, and its file added to the tally that is lent.
pub fn tally(schedule: &[u8], rows: &mut [u8], tally: &mut [u32; 65]) -> Tallied
    ensures { (result ≡ tally_report schedule.now (length rows.old) tally.old) × ((rows.new ≡ run_buffer schedule.now rows.old) × (tally.new ≡ tally_numbers schedule.now (length rows.old) tally.old)) }
{
    if is_roomy(tally) {
        let report = count_file(schedule, rows, tally);
        words(&tally[..]);
        return Tallied { report, refusal: 0 };
    }
    // no heap: the file's own tally
    let mut one = [0u32; 65];
    let report = count_file(schedule, rows, &mut one);
    match added(tally, &one) {
        Some(both) => {
            *tally = both;
            Tallied { report, refusal: 0 }
        }
        None => Tallied {
            report,
            refusal: FULL,
        },
    }
}

// ---- averages

// The greatest common divisor, by Euclid.
fn gcd(a: u64, b: u64) -> u64
    ensures { result ≡ gcd a b }
{
    let (mut x, mut y) = (a, b);
    // A `while`: no index is counted, and the remainders end with 0.
    while y != 0 {
        (x, y) = (y, x % y);
    }
    x
}

// Steps over operations in lowest terms, 0/1 where there is none, as C is handed it.
#[tactic(auto, using(crate::proofs::Averages::gcd_positive, crate::proofs::Averages::average_none, crate::proofs::Averages::average_some))]
fn in_lowest(steps: u64, operations: u64) -> Average
    ensures { result ≡ average steps operations }
{
    if operations == 0 {
        return NO_AVERAGE;
    }
    let g = gcd(steps, operations);
    Average {
        steps: steps / g,
        operations: operations / g,
    }
}

// The average of an action's row; 0/1 for a number that is no action's. C asks by the number, and any number.
#[tactic(auto, unfolding(season::specs::Season::average_of, container::specs::Choice::ite))]
pub fn average_of(tally: &[u32; 65], action: u8) -> Average
    ensures { result ≡ average_of tally.now action }
{
    if action == 0 || 6 < action {
        return NO_AVERAGE;
    }
    let a = usize::from(action);
    in_lowest(
        u64::from(tally[32 + a]),
        u64::from(tally[8 + a]) + u64::from(tally[16 + a]),
    )
}
