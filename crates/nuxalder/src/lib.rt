// Run, the one-writer run, List, State, Merge, History, Judge and Tally for a C host; include/nuxalder.h says what each number means.
#![tactic(auto)]

ghost use Rattle.std.specs.Prelude.{◌≡◌, length};
ghost use Rattle.definitions.specs.Run.{run_report, run_buffer};
ghost use Rattle.definitions.specs.Profile.{profile_report, profile_buffer};
ghost use Rattle.definitions.specs.Listing.{list_report, list_buffer};
ghost use Rattle.snapshot.specs.State.{state_report, state_buffer};
ghost use Rattle.definitions.specs.Merge.{merge_report, merge_buffer};
ghost use Rattle.definitions.specs.Written.{written_report, written_buffer};
ghost use Rattle.definitions.specs.Judgement.{Judgement};
ghost use Rattle.definitions.specs.declared.Judged.{Judged};
ghost use Rattle.season.specs.Tally.{tally_report, tally_numbers};
ghost use Rattle.season.specs.Season.{average_of};
ghost use Rattle.nuxalder.specs.Fields.{run_fields, list_fields, state_fields, merge_fields, written_fields, judged_fields, tally_fields, average_fields};

use definitions::Report;

// A report's six numbers, as C has them. No `From`: a report and an array are both types of other crates.
fn fields(r: Report) -> [u64; 6]
    ensures { result ≡ run_fields r }
{
    [r.refusal, r.records, r.rows, r.set, r.stored, r.used]
}

// void nuxalder_run(const uint8_t *schedule, size_t length, uint8_t *rows, size_t length, uint64_t report[6])
#[unsafe(no_mangle)]
pub extern "C" fn nuxalder_run(schedule: &[u8], rows: &mut [u8], report: &mut [u64; 6])
    ensures { (report.new ≡ run_fields (run_report schedule.now (length rows.old))) × (rows.new ≡ run_buffer schedule.now rows.old) }
{
    let r = run::run(schedule, rows);
    *report = fields(r);
}

// void nuxalder_run_one_writer(const uint8_t *schedule, size_t length, uint8_t *rows, size_t length, uint64_t report[6])
#[unsafe(no_mangle)]
pub extern "C" fn nuxalder_run_one_writer(schedule: &[u8], rows: &mut [u8], report: &mut [u64; 6])
    ensures { (report.new ≡ run_fields (profile_report schedule.now (length rows.old))) × (rows.new ≡ profile_buffer schedule.now rows.old) }
{
    let p = writer::run(schedule, rows);
    *report = fields(p);
}

// void nuxalder_list(const uint8_t *schedule, size_t length, uint8_t *text, size_t length, uint64_t report[2])
#[unsafe(no_mangle)]
pub extern "C" fn nuxalder_list(schedule: &[u8], text: &mut [u8], report: &mut [u64; 2])
    ensures { (report.new ≡ list_fields (list_report schedule.now (length text.old))) × (text.new ≡ list_buffer schedule.now text.old) }
{
    let r = list::list(schedule, text);
    *report = [r.refusal, r.length];
}

// void nuxalder_state(const uint8_t *schedule, size_t length, uint64_t records, uint8_t *state, size_t length, uint64_t report[3])
#[unsafe(no_mangle)]
pub extern "C" fn nuxalder_state(
    schedule: &[u8],
    records: u64,
    state: &mut [u8],
    report: &mut [u64; 3],
)
    ensures { (report.new ≡ state_fields (state_report schedule.now records (length state.old))) × (state.new ≡ state_buffer schedule.now records state.old) }
{
    let r = state::state(schedule, records, state);
    *report = [r.refusal, r.records, r.length];
}

// void nuxalder_merge(const uint8_t *first, size_t length, const uint8_t *second, size_t length, uint8_t *out, size_t length, uint64_t report[4])
#[unsafe(no_mangle)]
pub extern "C" fn nuxalder_merge<'a>(
    first: &'a [u8],
    second: &'a [u8],
    out: &mut [u8],
    report: &mut [u64; 4],
)
    ensures { (report.new ≡ merge_fields (merge_report first.now second.now (length out.old))) × (out.new ≡ merge_buffer first.now second.now out.old) }
{
    match merge::merge(first, second, out) {
        Err(r) => {
            *report = [u64::from(r), 0, 0, 0];
        }
        Ok(part) => {
            // a part goes to the end of its file
            let n = part.len();
            if first.len() < second.len() {
                *report = [0, 1, (second.len() - n) as u64, n as u64];
            } else {
                *report = [0, 0, (first.len() - n) as u64, n as u64];
            }
        }
    }
}

// void nuxalder_history(const uint8_t *schedule, size_t length, uint8_t *history, size_t length, uint64_t report[2])
#[unsafe(no_mangle)]
pub extern "C" fn nuxalder_history(schedule: &[u8], history: &mut [u8], report: &mut [u64; 2])
    ensures { (report.new ≡ written_fields (written_report schedule.now (length history.old))) × (history.new ≡ written_buffer schedule.now history.old) }
{
    let w = history::history(schedule, history);
    *report = [w.refusal, w.length];
}

// void nuxalder_judge(const uint8_t *history, size_t length, uint8_t order[12], uint64_t report[3])
#[unsafe(no_mangle)]
pub extern "C" fn nuxalder_judge(history: &[u8], order: &mut [u8; 12], report: &mut [u64; 3])
    ensures { (r : Judged) × Judgement history.now r × (order.new ≡ r.order) × (report.new ≡ judged_fields r) }
{
    let r = judge::judge(history);
    let numbers = r.order;
    *order = numbers;
    *report = [r.refusal, u64::from(r.accepted), r.operations];
}

// C lends the tally by itself, here and below, and names an action by its number.
// void nuxalder_tally(const uint8_t *schedule, size_t length, uint8_t *rows, size_t length, uint32_t tally[65], uint64_t report[7])
#[unsafe(no_mangle)]
pub extern "C" fn nuxalder_tally(
    schedule: &[u8],
    rows: &mut [u8],
    tally: &mut [u32; 65],
    report: &mut [u64; 7],
)
    ensures { (report.new ≡ tally_fields (tally_report schedule.now (length rows.old) tally.old)) × ((rows.new ≡ run_buffer schedule.now rows.old) × (tally.new ≡ tally_numbers schedule.now (length rows.old) tally.old)) }
{
    let t = tally::tally(schedule, rows, tally);
    // seven numbers: `fields` and one more would be no shorter
    let r = t.report;
    *report = [
        r.refusal, r.records, r.rows, r.set, r.stored, r.used, t.refusal,
    ];
}

// void nuxalder_average(const uint32_t tally[65], uint8_t action, uint64_t average[2])
#[unsafe(no_mangle)]
pub extern "C" fn nuxalder_average(tally: &[u32; 65], action: u8, average: &mut [u64; 2])
    ensures { average.new ≡ average_fields (average_of tally.now action) }
{
    let r = tally::average_of(tally, action);
    *average = [r.steps, r.operations];
}
