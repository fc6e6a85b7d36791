// The exports of crate nuxalder for C, each with its clauses; include/nuxalder.h says what each number means. They are named again, with what C
// lends: a crate is a library or a static library, and the C library is this one; the library nuxalder is what programs in this language link.
#![tactic(auto)]

ghost use Rattle.std.specs.Prelude.{◌≡◌, length};
ghost use Rattle.definitions.specs.Run.{run_report, run_buffer};
ghost use Rattle.definitions.specs.Profile.{profile_report, profile_buffer};
ghost use Rattle.definitions.specs.Listing.{list_report, list_buffer};
ghost use Rattle.snapshot.specs.State.{state_report, state_buffer};
ghost use Rattle.definitions.specs.Merge.{merge_report, merge_buffer};
ghost use Rattle.definitions.specs.Written.{written_report, written_buffer};
ghost use Rattle.definitions.specs.Judgement.{Judgement};
ghost use Rattle.definitions.specs.declared.Judged.{Judged};
ghost use Rattle.season.specs.Tally.{tally_report, tally_numbers};
ghost use Rattle.season.specs.Season.{average_of};
ghost use Rattle.nuxalder.specs.Fields.{run_fields, list_fields, state_fields, merge_fields, written_fields, judged_fields, tally_fields, average_fields};

// void nuxalder_run(const uint8_t *schedule, size_t length, uint8_t *rows, size_t length, uint64_t report[6])
#[unsafe(no_mangle)]
pub extern "C" fn nuxalder_run(schedule: &[u8], rows: &mut [u8], report: &mut [u64; 6])
    ensures { (report.new ≡ run_fields (run_report schedule.now (length rows.old))) × (rows.new ≡ run_buffer schedule.now rows.old) }
{
    nuxalder::nuxalder_run(schedule, rows, report);
}

// void nuxalder_run_one_writer(const uint8_t *schedule, size_t length, uint8_t *rows, size_t length, uint64_t report[6])
#[unsafe(no_mangle)]
pub extern "C" fn nuxalder_run_one_writer(schedule: &[u8], rows: &mut [u8], report: &mut [u64; 6])
    ensures { (report.new ≡ run_fields (profile_report schedule.now (length rows.old))) × (rows.new ≡ profile_buffer schedule.now rows.old) }
{
    nuxalder::nuxalder_run_one_writer(schedule, rows, report);
}

// void nuxalder_list(const uint8_t *schedule, size_t length, uint8_t *text, size_t length, uint64_t report[2])
#[unsafe(no_mangle)]
pub extern "C" fn nuxalder_list(schedule: &[u8], text: &mut [u8], report: &mut [u64; 2])
    ensures { (report.new ≡ list_fields (list_report schedule.now (length text.old))) × (text.new ≡ list_buffer schedule.now text.old) }
{
    nuxalder::nuxalder_list(schedule, text, report);
}

// void nuxalder_state(const uint8_t *schedule, size_t length, uint64_t records, uint8_t *state, size_t length, uint64_t report[3])
#[unsafe(no_mangle)]
pub extern "C" fn nuxalder_state(
    schedule: &[u8],
    records: u64,
    state: &mut [u8],
    report: &mut [u64; 3],
)
    ensures { (report.new ≡ state_fields (state_report schedule.now records (length state.old))) × (state.new ≡ state_buffer schedule.now records state.old) }
{
    nuxalder::nuxalder_state(schedule, records, state, report);
}

// void nuxalder_merge(const uint8_t *first, size_t length, const uint8_t *second, size_t length, uint8_t *out, size_t length, uint64_t report[4])
#[unsafe(no_mangle)]
pub extern "C" fn nuxalder_merge<'a>(
    first: &'a [u8],
    second: &'a [u8],
    out: &mut [u8],
    report: &mut [u64; 4],
)
    ensures { (report.new ≡ merge_fields (merge_report first.now second.now (length out.old))) × (out.new ≡ merge_buffer first.now second.now out.old) }
{
    nuxalder::nuxalder_merge(first, second, out, report);
}

// void nuxalder_history(const uint8_t *schedule, size_t length, uint8_t *history, size_t length, uint64_t report[2])
#[unsafe(no_mangle)]
pub extern "C" fn nuxalder_history(schedule: &[u8], history: &mut [u8], report: &mut [u64; 2])
    ensures { (report.new ≡ written_fields (written_report schedule.now (length history.old))) × (history.new ≡ written_buffer schedule.now history.old) }
{
    nuxalder::nuxalder_history(schedule, history, report);
}

// void nuxalder_judge(const uint8_t *history, size_t length, uint8_t order[12], uint64_t report[3])
#[unsafe(no_mangle)]
pub extern "C" fn nuxalder_judge(history: &[u8], order: &mut [u8; 12], report: &mut [u64; 3])
    ensures { (r : Judged) × Judgement history.now r × (order.new ≡ r.order) × (report.new ≡ judged_fields r) }
{
    nuxalder::nuxalder_judge(history, order, report);
}

// C lends the tally by itself, here and below, and names an action by its number.
// void nuxalder_tally(const uint8_t *schedule, size_t length, uint8_t *rows, size_t length, uint32_t tally[65], uint64_t report[7])
#[unsafe(no_mangle)]
pub extern "C" fn nuxalder_tally(
    schedule: &[u8],
    rows: &mut [u8],
    tally: &mut [u32; 65],
    report: &mut [u64; 7],
)
    ensures { (report.new ≡ tally_fields (tally_report schedule.now (length rows.old) tally.old)) × ((rows.new ≡ run_buffer schedule.now rows.old) × (tally.new ≡ tally_numbers schedule.now (length rows.old) tally.old)) }
{
    nuxalder::nuxalder_tally(schedule, rows, tally, report);
}

// void nuxalder_average(const uint32_t tally[65], uint8_t action, uint64_t average[2])
#[unsafe(no_mangle)]
pub extern "C" fn nuxalder_average(tally: &[u32; 65], action: u8, average: &mut [u64; 2])
    ensures { average.new ≡ average_fields (average_of tally.now action) }
{
    nuxalder::nuxalder_average(tally, action, average);
}
