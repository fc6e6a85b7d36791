// The printed run: Run's report and rows and List's text, as lines. From version 2 on a row is 14 bytes, and a lookup's yes has its depth.
#![tactic(auto, using(buffer::proofs::Writes::writes))]

ghost use Rattle.std.specs.Prelude.{◌≡◌, ◌++◌, ◌*◌, ◌%◌, ◌≤◌, length, take};
ghost use Rattle.buffer.specs.Page.{page, put_all};
ghost use Rattle.buffer.specs.Writes.{Writes};
ghost use Rattle.definitions.specs.Schedule.{count_of, file_refusal};
ghost use Rattle.definitions.specs.Run.{row_width, overlay};
ghost use Rattle.definitions.specs.Answers.{answer_word};
ghost use Rattle.definitions.specs.Listing.{decimal};
ghost use Rattle.definitions.specs.Printed.{action_word, first_line, depth_text, row_line, row_lines, last_line, printed};
ghost use Rattle.listing.specs.Texts.{headed};

use buffer::Page;
use definitions::{Listed, Report, Version};

// ---- words and numbers

// A number of a report.
pub fn put_number(out: &mut Page, n: u64)
    ensures { Writes out.old out.new (decimal (n % 10000)) }
{
    out.put_decimal((n % 10000) as u16);
}

// The word for an action's number, a byte of a row: a number and not `Action`, for a row holds bytes, as 01 has them. So does `put_answer` take one.
#[tactic(auto, using(buffer::proofs::Writes::writes, crate::proofs::Cases::action_cases))]
pub fn put_action(out: &mut Page, a: u8)
    ensures { Writes out.old out.new (action_word a) }
{
    match a {
        1 => out.put_all(b"lookup"),
        2 => out.put_all(b"insert"),
        3 => out.put_all(b"remove"),
        4 => out.put_all(b"split"),
        5 => out.put_all(b"join"),
        _ => out.put_all(b"range"),
    }
}

// "yes" or "no".
#[tactic(auto, using(buffer::proofs::Writes::writes, crate::proofs::Cases::answer_cases))]
pub fn put_answer(out: &mut Page, y: u8)
    ensures { Writes out.old out.new (answer_word y) }
{
    if y == 1 {
        out.put_all(b"yes");
    } else {
        out.put_all(b"no");
    }
}

// ---- the rows

// The length of a row. One `if` or match, as for each size by version, where it is used: schedule's of a file, run's of a record and of the
// rows, list's of a text, tally's of a record and a row. One table of all would stand in schedule or below it, and be no plainer.
#[tactic(auto, using(crate::proofs::Cases::width_cases))]
fn row_width(version: Version) -> usize
    ensures { result ≡ row_width (headed version) }
{
    if version == 1 { 4 } else { 14 }
}

// The depth after a lookup's yes, from version 2 on; `row` begins with the row.
#[tactic(auto, using(buffer::proofs::Writes::writes, crate::proofs::Cases::depth_cases))]
pub fn put_depth(out: &mut Page, version: Version, row: &[u8])
    requires { row_width (headed version) ≤ length row.now }
    ensures { Writes out.old out.new (depth_text (headed version) row.now) }
{
    if version == 1 {
        return;
    }
    if let [_, 1, _, 1, high, low, ..] = row {
        out.put(b' ');
        out.put_decimal(u16::from_be_bytes([*high, *low]));
    }
}

// The line of a row, with which `row` begins.
#[tactic(auto, using(crate::proofs::Cases::width_least))]
pub fn put_row(out: &mut Page, version: Version, row: &[u8])
    requires { row_width (headed version) ≤ length row.now }
    ensures { Writes out.old out.new (row_line (headed version) row.now) }
{
    out.put(b't');
    out.put_decimal(u16::from(row[0]));
    out.put(b' ');
    put_action(out, row[1]);
    out.put(b' ');
    out.put_decimal(u16::from(row[2]));
    out.put(b' ');
    put_answer(out, row[3]);
    put_depth(out, version, row);
    out.put(b'\n');
}

// The lines of the first rows of a buffer. The number of rows stands beside, in `put_lines` as `r.rows`: the buffer is as long as it was lent.
pub fn put_rows(out: &mut Page, version: Version, rows: &[u8], count: usize)
    requires { count * row_width (headed version) ≤ length rows.now }
    ensures { Writes out.old out.new (row_lines (headed version) count rows.now) }
{
    for row in rows.chunks_exact(row_width(version)).take(count) {
        put_row(out, version, row);
    }
}

// ---- the first line and the last

// Records done, count, refusal: the numbers of a report, whose refusal is a number, 0 for none (the C header says so).
pub fn put_first(out: &mut Page, done: u64, count: u64, refusal: u64)
    ensures { Writes out.old out.new (first_line (done % 10000) (count % 10000) (refusal % 10000)) }
{
    out.put_all(b"records ");
    put_number(out, done);
    out.put_all(b" of ");
    put_number(out, count);
    out.put_all(b" refusal ");
    put_number(out, refusal);
    out.put(b'\n');
}

// The stored count and the numbers used.
pub fn put_last(out: &mut Page, stored: u64, used: u64)
    ensures { Writes out.old out.new (last_line (stored % 10000) (used % 10000)) }
{
    out.put_all(b"stored ");
    put_number(out, stored);
    out.put_all(b" used ");
    put_number(out, used);
    out.put(b'\n');
}

// ---- the whole

// The lines of a run: its report and rows, its text, and the file's version and count. A report stands beside its buffer, r beside `rows` and l
// beside `text`: as Run and List hand them back, for C.
pub fn put_lines(
    out: &mut Page,
    version: Version,
    count: u64,
    r: Report,
    rows: &[u8],
    l: Listed,
    text: &[u8],
)
    requires { (r.rows * row_width (headed version) ≤ length rows.now) × (l.length ≤ length text.now) }
    ensures { Writes out.old out.new (first_line (r.records % 10000) (count % 10000) (r.refusal % 10000) ++ (row_lines (headed version) r.rows rows.now ++ (take l.length text.now ++ last_line (r.stored % 10000) (r.used % 10000)))) }
{
    put_first(out, r.records, count, r.refusal);
    put_rows(out, version, rows, r.rows as usize);
    out.put_all(&text[..l.length as usize]);
    put_last(out, r.stored, r.used);
}

// The printed run of a schedule.
fn put_run(out: &mut Page, schedule: &[u8])
    ensures lines { Writes out.old out.new (printed schedule.now) }
    ensures few { file_refusal schedule.now ≡ 0 → count_of schedule.now ≤ 4096 }
{
    if let Err(r) = schedule::check(schedule) {
        put_first(out, 0, 0, u64::from(r));
        return;
    }
    let count = schedule::count_of(schedule);
    let version = schedule[0];
    // fixed memory, for there is no heap
    let mut rows = [0u8; 28672];
    let mut text = [0u8; 8192];
    let r = run::run(schedule, &mut rows);
    let l = list::list(schedule, &mut text);
    put_lines(out, version, count as u64, r, &rows, l, &text);
}

// The same from the start of a buffer; gives its length.
pub fn print_run(schedule: &[u8], out: &mut [u8]) -> usize
    ensures result_after { page out.new result ≡ put_all (page out.old 0) (printed schedule.now) }
    ensures value { 65536 ≤ length out.old → (result ≡ length (printed schedule.now)) × (out.new ≡ overlay (printed schedule.now) out.old) }
{
    let mut lines = Page { bytes: out, at: 0 };
    put_run(&mut lines, schedule);
    lines.at
}
