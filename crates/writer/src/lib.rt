// The profile run: Run's rows and numbers over the records before the first one that is barred.
#![tactic(auto)]

ghost use Rattle.std.specs.Prelude.{◌≡◌, ◌&&◌, ◌+◌, ◌*◌, ◌/◌, ◌%◌, ◌≤◌, ◌<◌, eqb, leb, length, take};
ghost use Rattle.container.specs.Choice.{ite};
ghost use Rattle.schedule.specs.Proper.{Proper};
ghost use Rattle.definitions.specs.Schedule.{count_of, record_at, file_refusal};
ghost use Rattle.definitions.specs.Versions.{stop_of, width};
ghost use Rattle.definitions.specs.Run.{after, report_of, overlay, run_refusal};
ghost use Rattle.definitions.specs.Profile.{outside, barred, profile_report, profile_buffer};
ghost use Rattle.writer.specs.Part.{part, halt, FirstBarred};

use definitions::{Refusal, Report, Version};

// Whether a record with the first byte x is barred in a file of version v: an insert, a remove, a split or a join of threads
// 1 to 3, or a range query, which version 1 has not. The actions are numbers: the scan comes before the run, and a record may have any number.
#[tactic(auto, using(crate::proofs::Scan::bars_cases))]
fn is_barred(v: Version, x: u8) -> bool
    ensures { result ≡ (leb (x / 16) 3 && leb (x % 16) (ite (eqb v 1) 5 6)) && outside (x / 16) (x % 16) }
{
    match (x / 16, x % 16) {
        (1..=3, 2..=5) => true,
        (0..=3, 6) => v != 1,
        _ => false,
    }
}

// Where record k starts in a file of version v, which is how long a file of the first k is.
pub fn start_of(v: Version, k: usize) -> usize
    requires { k ≤ 4096 }
    ensures { result ≡ 3 + ite (eqb v 1) 2 4 * k }
{
    schedule::length_of(v, k)
}

// Whether record k is barred.
fn bars(s: &[u8], k: usize) -> bool
    requires { Proper s.now × (k < count_of s.now) }
    ensures { result ≡ barred (record_at s.now k) }
{
    let v = schedule::version_of(s);
    is_barred(v, s[start_of(v, k)])
}

// The first record that is barred.
fn first_barred(s: &[u8]) -> Option<usize>
    requires { Proper s.now }
    ensures { FirstBarred s.now result }
{
    (0..schedule::count_of(s)).find(|k| bars(s, *k))
}

// The first n bytes of s: a public function over slices of any length, by which `part_of` cuts a file. n stands beside s: to cut both slices at
// the call would be no plainer.
pub fn copy(s: &[u8], n: usize, out: &mut [u8])
    requires { (n ≤ length s.now) × (n ≤ length out.old) }
    ensures { take n out.new ≡ take n s.now }
{
    out[..n].copy_from_slice(&s[..n]);
}

// The first k records as a file of their own, with k in its header, written at the start of `room`. That there are so many is told, here and to
// the two `before`: a type for such a k would be made of what is known at each call, and be no plainer.
pub fn part_of<'a>(schedule: &[u8], k: usize, room: &'a mut [u8; 16387]) -> &'a [u8]
    requires { (file_refusal schedule.now ≡ 0) × (k ≤ count_of schedule.now) }
    ensures { result.now ≡ part schedule.now k }
{
    let end = start_of(schedule::version_of(schedule), k);
    copy(schedule, end, room);
    room[1..3].copy_from_slice(&(k as u16).to_be_bytes());
    &room[..end]
}

// Run over the first k records. There is no heap: `room` is as long as the longest file. State has a `before` too: each makes another thing of
// the part, and to take that as a parameter would be no plainer.
fn before(schedule: &[u8], k: usize, rows: &mut [u8]) -> Report
    requires { (run_refusal schedule.now (length rows.old) ≡ 0) × (k ≤ count_of schedule.now) }
    ensures { (result ≡ report_of (after schedule.now k)) × (rows.new ≡ overlay (after schedule.now k).rows rows.old) }
{
    let mut room = [0u8; 16387];
    run::run(part_of(schedule, k, &mut room), rows)
}

// A run that no record ended is ended by the barred one. A report's refusal is a number, 0 for none, as the C header has it.
fn stopped(r: Report) -> Report
    ensures { result ≡ halt r }
{
    if r.refusal == 0 {
        Report {
            refusal: u64::from(Refusal::Barred),
            ..r
        }
    } else {
        r
    }
}

// Whether a file is of version 3, which has the stop on; a file under three bytes is of none.
fn is_of_3(s: &[u8]) -> bool
    ensures { result ≡ leb 3 (length s.now) && stop_of s.now }
{
    matches!(s, [3, _, _, ..])
}

// The profile run: the report, and the rows in the buffer. Version 3 is refused. Another file that is refused, or that has no barred
// record, is Run's.
pub fn run(schedule: &[u8], rows: &mut [u8]) -> Report
    ensures { (result ≡ profile_report schedule.now (length rows.old)) × (rows.new ≡ profile_buffer schedule.now rows.old) }
{
    if is_of_3(schedule) {
        return Report::from(Refusal::Version);
    }
    if run::check(schedule, rows.len()).is_ok() {
        if let Some(k) = first_barred(schedule) {
            let r = before(schedule, k, rows);
            return stopped(r);
        }
    }
    run::run(schedule, rows)
}
