// State: the whole bench after the first records of a schedule, as bytes in a lent buffer (docs/STATE.md).
#![tactic(auto, using(buffer::proofs::Writes::writes, crate::proofs::Cases::each_none))]

ghost use Rattle.std.specs.Prelude.{◌≡◌, OnOk, ◌≤◌, length};
ghost use Rattle.schedule.specs.Proper.{Proper};
ghost use Rattle.definitions.specs.Versions.{version};
ghost use Rattle.definitions.specs.Refusal.{code_of};
ghost use Rattle.definitions.specs.Schedule.{count_of, file_refusal};
ghost use Rattle.definitions.specs.Run.{after, ended, overlay};
ghost use Rattle.run.specs.Standing.{Enough};
ghost use Rattle.snapshot.specs.State.{state_bytes, stated_at, state_refusal, state_report, state_buffer};

use bench::Bench;
use definitions::Refusal;
use frames::frame::Frame;
use snapshot::Stated;

mod bench; // the bench as bytes

// Whether State can be asked of a file and a buffer of `room` bytes.
pub fn check(schedule: &[u8], room: usize) -> Result<(), Refusal>
    ensures refusal { code_of result ≡ state_refusal schedule.now room }
    ensures proper { OnOk result (Proper schedule.now) }
{
    schedule::check(schedule)?;
    if room < 48912 {
        return Err(Refusal::StateBuffer);
    }
    Ok(())
}

// State of a file that is not refused, with so many depths, results of stores, and frames. That the buffer has room is told to this and the two
// below: `check` has tested it once, and a type for such a buffer would be opened by each. Each thread's frames are written, so from version
// 2 on they are there, also for a file that asks for no query. Each instance has a stack frame of its own, as Run's. Not one function with
// Run's and List's: each makes another thing of where the run ends, and to take that as a parameter would be no plainer.
#[inline(never)]
fn report<const DEPTHS: usize, const RESULTS: usize, const FRAMES: usize>(
    schedule: &[u8],
    out: &mut [u8],
) -> Stated
    requires proper { Proper schedule.now }
    requires enough { Enough schedule.now DEPTHS RESULTS FRAMES }
    requires there { (version schedule.now ≡ 1 → ⊥) → FRAMES ≡ 16 }
    requires room { 48912 ≤ length out.old }
    ensures { (result ≡ stated_at schedule.now (ended schedule.now)) × (out.new ≡ overlay (state_bytes schedule.now (ended schedule.now)) out.old) }
{
    let mut nodes = nodes::fresh();
    let mut depths = [0u16; DEPTHS];
    let mut results = [None; RESULTS];
    let mut lent = [Frame::EMPTY; FRAMES];
    let p = run::carry_out(
        &mut nodes,
        &mut depths,
        &mut results,
        &mut lent,
        &mut [],
        schedule,
        &mut [],
    );
    let bench = Bench {
        nodes: &nodes,
        depths: &depths,
        results: &results,
        lent: &lent,
        standing: p,
        version: schedule[0],
    };
    let at = bench.write(out);
    Stated {
        refusal: u64::from(run::code(p.refusal)),
        records: p.done as u64,
        length: at as u64,
    }
}

// State of a file that is not refused. Version 1 has no use for depths, nor for a query's memory.
fn whole(schedule: &[u8], out: &mut [u8]) -> Stated
    requires { Proper schedule.now × (48912 ≤ length out.old) }
    ensures { (result ≡ stated_at schedule.now (ended schedule.now)) × (out.new ≡ overlay (state_bytes schedule.now (ended schedule.now)) out.old) }
{
    if schedule[0] == 1 {
        report::<0, 0, 0>(schedule, out)
    } else {
        report::<16384, 256, 16>(schedule, out)
    }
}

// State of the first k records. There is no heap: `room` is as long as the longest file.
fn before(schedule: &[u8], k: usize, out: &mut [u8]) -> Stated
    requires { (file_refusal schedule.now ≡ 0) × ((k ≤ count_of schedule.now) × (48912 ≤ length out.old)) }
    ensures { (result ≡ stated_at schedule.now (after schedule.now k)) × (out.new ≡ overlay (state_bytes schedule.now (after schedule.now k)) out.old) }
{
    let mut room = [0u8; 16387];
    whole(writer::part_of(schedule, k, &mut room), out)
}

// State: the report, and the bytes in the buffer.
pub fn state(schedule: &[u8], records: u64, out: &mut [u8]) -> Stated
    ensures { (result ≡ state_report schedule.now records (length out.old)) × (out.new ≡ state_buffer schedule.now records out.old) }
{
    if let Err(r) = check(schedule, out.len()) {
        return Stated::from(r);
    }
    let count = schedule::count_of(schedule);
    if records < count as u64 {
        let k = records as usize;
        return before(schedule, k, out);
    }
    whole(schedule, out)
}
