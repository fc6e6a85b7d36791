// History: the run of a version 1 schedule written as a history, into a lent buffer. Run is asked for its rows; where in turn order a row stands
// is read off the schedule: an operation's last step is its thread's last before the next start.
#![tactic(auto, using(buffer::proofs::Writes::writes))]

ghost use Rattle.std.specs.Prelude.{◌≡◌, OnOk, [], ◌∷◌, ◌+◌, ◌-◌, ◌/◌, ◌%◌, ◌<◌, ◌≤◌, length, get_or};
ghost use Rattle.schedule.specs.Proper.{Plain};
ghost use Rattle.buffer.specs.Page.{page, put_all};
ghost use Rattle.buffer.specs.Writes.{Writes};
ghost use Rattle.definitions.specs.Refusal.{code_of};
ghost use Rattle.definitions.specs.Written.{bytes_of, run_events, written, written_refusal, written_report, written_buffer};
ghost use Rattle.history.specs.Ahead.{starts_to, ahead, Told};

use buffer::Page;
use definitions::{Refusal, Written};

// A run of a version 1 schedule, and what Run handed back: the records that it carried out, and the rows of the operations that finished. The
// schedule is what the clauses speak of.
#[derive(Clone, Copy)]
struct Ran<'a> {
    schedule: &'a [u8],
    records: &'a [[u8; 2]],
    rows: &'a [[u8; 4]],
    ghost told: { Told schedule.now records.now rows.now },
}

// Version byte 1 and the count of events.
fn put_header(out: &mut Page, events: u16)
    ensures { Writes out.old out.new (1 ∷ events / 256 ∷ events % 256 ∷ []) }
{
    let [high, low] = events.to_be_bytes();
    out.put_all(&[1, high, low]);
}

// The event of a row: the row's first three bytes, then its answer's number and one more, so 1 for no and 2 for yes. The answer is a byte of a row,
// which Run wrote for C: to make it an enum again could fail.
fn put_finish(out: &mut Page, row: &[u8; 4])
    requires { get_or row.now 3 0 < 255 }
    ensures { Writes out.old out.new (get_or row.now 0 0 ∷ get_or row.now 1 0 ∷ get_or row.now 2 0 ∷ (get_or row.now 3 0 + 1) ∷ []) }
{
    out.put_all(&[row[0], row[1], row[2], row[3] + 1]);
}

impl Ran<'_> {
    // How many of the records start an operation.
    fn count_starts(&self) -> usize
        ensures { (result ≡ starts_to self.now.schedule.now (length self.now.records.now)) × (result ≤ length self.now.records.now) }
    {
        self.records
            .iter()
            .map(|r| usize::from(r[0] % 16 != 0))
            .sum()
    }

    // Whether thread t's next record, from `first` on, is a step. A thread's records are passed over once each by all calls for its steps
    // together.
    fn step_ahead(&self, first: usize, t: u8) -> bool
        requires { first ≤ length self.now.records.now }
        ensures { result ≡ ahead self.now.schedule.now first (length self.now.records.now - first) t }
    {
        self.records[first..]
            .iter()
            .find(|r| r[0] / 16 == t)
            .is_some_and(|r| r[0] % 16 == 0)
    }

    // The events, in turn order.
    fn put_events(&self, out: &mut Page)
        ensures { Writes out.old out.new (bytes_of (run_events self.now.schedule.now)) }
    {
        // m is no loop's index: it goes on only where a row's last step stands
        let mut m = 0usize;
        for (k, record) in self.records.iter().enumerate() {
            let t = record[0] / 16;
            let action = record[0] % 16;
            if action != 0 {
                out.put_all(&[t, action, record[1], 0]);
            } else if m < self.rows.len() && self.rows[m][0] == t && !self.step_ahead(k + 1, t) {
                put_finish(out, &self.rows[m]);
                m += 1;
            }
        }
    }

    // The history from the start of a buffer; gives its length.
    fn write(&self, out: &mut [u8]) -> usize
        ensures { page out.new result ≡ put_all (page out.old 0) (written self.now.schedule.now) }
    {
        let events = self.count_starts() + self.rows.len();
        let mut page = Page { bytes: out, at: 0 };
        put_header(&mut page, events as u16);
        self.put_events(&mut page);
        page.at
    }
}

// Whether History can be asked of a file, which has to be of version 1, and a buffer of `room` bytes.
pub fn check(schedule: &[u8], room: usize) -> Result<(), Refusal>
    ensures refusal { code_of result ≡ written_refusal schedule.now room }
    ensures plain { OnOk result (Plain schedule.now) }
{
    schedule::check_plain(schedule)?;
    let count = schedule::count_of(schedule);
    if room < passing::history_room(count) {
        return Err(Refusal::RowBuffer);
    }
    Ok(())
}

// History: the report, and the history in the buffer.
pub fn history(schedule: &[u8], events: &mut [u8]) -> Written
    ensures { (result ≡ written_report schedule.now (length events.old)) × (events.new ≡ written_buffer schedule.now events.old) }
{
    if let Err(r) = check(schedule, events.len()) {
        return Written::from(r);
    }
    // no heap: as much as the longest file's rows need
    let mut buffer = [0u8; 8192];
    let r = run::run(schedule, &mut buffer);
    let ran = Ran {
        schedule,
        records: &schedule::records(schedule)[..r.records as usize],
        rows: &buffer.as_chunks::<4>().0[..r.rows as usize],
    };
    let end = ran.write(events);
    Written {
        refusal: r.refusal,
        length: end as u64,
    }
}
