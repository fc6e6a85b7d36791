// Merge: two schedules into one. The records that both have are written in turns into a lent buffer; what is left over comes back as
// a part of the longer one, for the caller to append.
#![tactic(auto)]

ghost use Rattle.std.specs.Prelude.{◌≡◌, ◌+◌, ◌*◌, ◌≤◌, length};
ghost use Rattle.buffer.specs.Page.{page, put_all};
ghost use Rattle.definitions.specs.Run.{overlay};
ghost use Rattle.definitions.specs.Schedule.{count_of};
ghost use Rattle.definitions.specs.Refusal.{code_of};
ghost use Rattle.definitions.specs.Merge.{foreign, merge_refusal, smaller, needed, turns, merge_bytes, left_over, part_of};
ghost use Rattle.schedule.specs.Proper.{Plain};
ghost use Rattle.merge.specs.Accepted.{Accepted};
ghost use Rattle.merge.specs.Merging.{Merging, rest_of};

use definitions::Refusal;

// Whether the records are of the file's own threads, 0 and 1 of the first file, 2 and 3 of the second; f is 0 for the first file, 1 for
// the second: a number, for the upper bit of a thread's is compared with it.
fn check_threads(f: u8, s: &[u8]) -> Result<(), Refusal>
    requires { Plain s.now }
    ensures { code_of result ≡ foreign f s.now (count_of s.now) }
{
    // No way out of the loop: the compiler then looks at many records at a time. With `any` 2,048 records take 1.0 µs, and so 0.14 (each loop alone,
    // built by rustc); Merge is to take no more than at the start ("Speed" in docs/DESIGN-PASS.md).
    let mut other = false;
    for record in schedule::records(s) {
        other |= record[0] / 16 / 2 != f;
    }
    if other {
        return Err(Refusal::OtherThread);
    }
    Ok(())
}

// Whether two files can be merged into an output buffer of `room` bytes. Here and below the two files stand side by side, and `put_turns` and
// `left_over` are told that both are plain: a struct of the two would be opened in each function, and be no plainer.
fn check(first: &[u8], second: &[u8], room: usize) -> Result<(), Refusal>
    ensures { code_of result ≡ merge_refusal first.now second.now room }
{
    schedule::check_plain(first)?;
    schedule::check_plain(second)?;
    let a = schedule::count_of(first);
    let b = schedule::count_of(second);
    check_threads(0, first)?;
    check_threads(1, second)?;
    if 4096 < a + b {
        return Err(Refusal::Count);
    }
    if room < 3 + 4 * a.min(b) {
        return Err(Refusal::OutputBuffer);
    }
    Ok(())
}

// The records of both files in turns, after the header, as far as both have them.
fn put_turns(first: &[u8], second: &[u8], out: &mut [u8])
    requires { Plain first.now × Plain second.now × (needed first.now second.now ≤ length out.old) }
    ensures { page out.new (needed first.now second.now) ≡ put_all (page out.old 3) (turns first.now second.now (smaller first.now second.now)) }
{
    let pairs = schedule::records(first)
        .iter()
        .zip(schedule::records(second));
    // a place in the buffer, no chunks of it: std says nothing of what a slice that is lent in chunks ends as
    for (k, (one, other)) in pairs.enumerate() {
        let at = 3 + 4 * k;
        out[at..at + 4].copy_from_slice(&[one[0], one[1], other[0], other[1]]);
    }
}

// The output: the header, then the records in turns.
fn put_merged(first: &[u8], second: &[u8], out: &mut [u8])
    requires { Accepted first.now second.now (length out.old) }
    ensures { out.new ≡ overlay (merge_bytes first.now second.now) out.old }
{
    let all = schedule::count_of(first) + schedule::count_of(second);
    let [high, low] = (all as u16).to_be_bytes();
    out[..3].copy_from_slice(&[1, high, low]);
    put_turns(first, second, out);
}

// The unread tail of the longer file; of the first where they are as long. Records of the same size, after headers of the same size: it
// begins where the shorter file ends.
fn left_over<'a>(first: &'a [u8], second: &'a [u8]) -> &'a [u8]
    requires { Plain first.now × Plain second.now }
    ensures { result.now ≡ part_of first.now second.now (left_over first.now second.now) }
{
    if first.len() < second.len() {
        return &second[first.len()..];
    }
    &first[second.len()..]
}

// Merge: the output's bytes; the part of the longer file that is left over comes back.
pub fn merge<'a>(first: &'a [u8], second: &'a [u8], out: &mut [u8]) -> Result<&'a [u8], Refusal>
    ensures { Merging first.now second.now out.old (code_of result) out.new (rest_of result) }
{
    check(first, second, out.len())?;
    put_merged(first, second, out);
    Ok(left_over(first, second))
}
