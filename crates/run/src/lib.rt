// Run: a schedule carried out on a fresh bench, with its rows written into a lent buffer.
#![tactic(auto)]

ghost use Rattle.std.specs.Prelude.{◌≡◌, OnOk, false, [], ◌∷◌, ◌+◌, ◌*◌, ◌/◌, ◌%◌, ◌≤◌, ◌<◌, eqb, length, get_or};
ghost use Rattle.container.specs.Choice.{ite};
ghost use Rattle.nodes.specs.Table.{table};
ghost use Rattle.nodes.specs.Stores.{stores};
ghost use Rattle.depths.specs.Rows.{rows as depthRows};
ghost use Rattle.machine.specs.Enacted.{depth_by};
ghost use Rattle.schedule.specs.Proper.{Proper};
ghost use Rattle.answers.specs.Reachable.{Unasked};
ghost use Rattle.buffer.specs.Page.{page, put_all};
ghost use Rattle.buffer.specs.Writes.{Writes};
ghost use Rattle.definitions.specs.Nodes.{shape, empty_base};
ghost use Rattle.definitions.specs.Refusal.{code_of};
ghost use Rattle.definitions.specs.Schedule.{count_of};
ghost use Rattle.definitions.specs.Records.{action_number};
ghost use Rattle.definitions.specs.Versions.{version, by, width, row_room};
ghost use Rattle.definitions.specs.Run.{ended, report_of, overlay, wider_row, run_refusal, run_report, run_buffer};
ghost use Rattle.run.specs.Threads.{recounted};
ghost use Rattle.run.specs.Settled.{Settles};
ghost use Rattle.run.specs.Tallying.{Room, Told, Closed, Added};
ghost use Rattle.run.specs.Standing.{Lent, Spare, Enough, row_of, Carried, Handed};
ghost use Rattle.season.specs.Tally.{unfinished, place, sum, records_tally, numbers};

use buffer::Page;
use definitions::{Action, Answer, Nodes, Place, Quarter, Refusal, Report, Stop, Version};
use frames::Frames;
use frames::frame::Frame;
use machine::Asked;
use nodes::View;
use query::{Counts, Left, Task};
use steps::{Decision, Note, Notes, complete, join, search, swap};

pub mod query; // a step at a place from 60 on, and the row of a query

// Where a run stands. `at` is where the next row goes; `frames` has how many frames each thread has, `count` is that of the stop. Two arrays of
// four, not one: a step gets a copy of its thread's notes, and has no use for the number of frames. There is no heap.
#[derive(Clone, Copy)]
pub struct Standing {
    pub root: u8,
    pub used: u16,
    pub shown: u16,
    pub refusal: Result<(), Refusal>,
    pub done: usize,
    pub finished: usize,
    pub at: usize,
    pub threads: [Notes; 4],
    pub frames: [usize; 4],
    pub count: usize,
}

// What is left to do once a record has been looked at: nothing, the row of an answer, or what has to do with frames. A switch in two steps:
// what several ways lead to is written once.
#[derive(Clone, Copy)]
enum Job {
    Nothing,
    Row(Answer),
    Task(Task),
}

// A refusal's number in a report, 0 for none. A number, for reports and a state have it so; no `From`, for `Result` and `u8` are both the library's.
pub fn code(outcome: Result<(), Refusal>) -> u8
    ensures { result ≡ code_of outcome }
{
    match outcome {
        Ok(()) => 0,
        Err(refusal) => refusal as u8,
    }
}

// What a row has after its four bytes from version 2 on: a depth, and a set. Inlined: by a call, runs of versions 2 and 3 take 10 % longer.
#[inline]
#[tactic(auto, using(crate::proofs::Cases::wider_bytes, buffer::proofs::Writes::said))]
fn put_wider(page: &mut Page, depth: u16, set: u64)
    ensures { Writes page.old page.new (wider_row depth set) }
{
    let [high, low] = depth.to_be_bytes();
    let [b7, b6, b5, b4, b3, b2, b1, b0] = set.to_be_bytes();
    page.put_all(&[high, low, b7, b6, b5, b4, b3, b2, b1, b0]);
}

// The row of thread t, which was th and has its answer, in a file of version v; from version 2 on with a lookup's depth. `query::write_found` is
// not one with it: an answer's row has a depth, which is read from version 2 on alone, and a query's a set.
fn write_row(page: &mut Page, v: Version, t: u8, th: Notes, answer: Answer, depths: &[u16])
    ensures { Writes page.old page.new (row_of v t th answer (depth_by answer (depthRows depths.now) th.station)) }
{
    page.put_all(&[t, u8::from(th.action), th.station, u8::from(answer)]);
    if v != 1 {
        put_wider(page, machine::depth_of(depths, answer, th.station), 0);
    }
}

// The same into the lent buffer, from `at` on; gives where the next one goes. `rows` and `at` are no `Page` here, nor in `query::put_found`, and
// would be no plainer as one: the loop hands `at` out in its standing, whose field stays as callers know it, and its proof speaks of rows and `at`.
pub fn put_row(
    rows: &mut [u8],
    at: usize,
    v: Version,
    t: u8,
    th: Notes,
    answer: Answer,
    depths: &[u16],
) -> usize
    ensures { page rows.new result ≡ put_all (page rows.old at) (row_of v t th answer (depth_by answer (depthRows depths.now) th.station)) }
{
    let mut page = Page { bytes: rows, at };
    write_row(&mut page, v, t, th, answer, depths);
    page.at
}

// The count of the stop after a step at this place. A match on 02's places 4 and 5, as in the parts of steps: the header of crate steps says why.
fn recount(place: Place, count: usize) -> usize
    requires { (count < 5) × (place ≡ 5 → 0 < count) }
    ensures { result ≡ recounted place count }
{
    match place {
        4 => count + 1,
        5 => count - 1,
        _ => count,
    }
}

// The last two bytes of a record from version 2 on.
fn extra_of(bytes: &[u8]) -> u16
    requires { 3 < length bytes.now }
    ensures { result ≡ get_or bytes.now 2 0 * 256 + get_or bytes.now 3 0 }
{
    u16::from_be_bytes([bytes[2], bytes[3]])
}

// What a step below 60 has decided is carried out: it writes, its thread notes, and what is left to do for the thread comes back. Inlined: by a
// call, 4,096 records of version 1 take 1.06 times as long, 256 records 1.25 to 1.3 times. Root, numbers used and notes are lent each by itself: a
// struct of the first two would be made for the call, and taken apart again.
#[inline(always)]
fn settle(
    nodes: &mut Nodes,
    depths: &mut [u16],
    root: &mut u8,
    used: &mut u16,
    th: &mut Notes,
    d: Decision,
) -> Job
    ensures { Settles d (table nodes.old) depths.old root.old used.old th.old (table nodes.new) depths.new root.new used.new th.new result }
{
    match d {
        Decision::Goes {
            effect,
            place,
            note,
        } => {
            *root = machine::enact(nodes, depths, *root, *used, effect);
            *used = effects::used_after(*used, effect);
            match note {
                Note::Nothing => {
                    th.place = place;
                    Job::Nothing
                }
                // a range base is in the way: its query is helped in a frame of its own
                Note::Opened => {
                    th.place = place;
                    Job::Task(Task::Help)
                }
                _ => {
                    machine::note(th, place, note);
                    Job::Nothing
                }
            }
        }
        Decision::Answers { effect, answer } => {
            *root = machine::enact(nodes, depths, *root, *used, effect);
            *used = effects::used_after(*used, effect);
            Job::Row(answer)
        }
        Decision::Back { effect } => {
            *root = machine::enact(nodes, depths, *root, *used, effect);
            *used = effects::used_after(*used, effect);
            Job::Task(Task::Back)
        }
        Decision::NodesOut => Job::Task(Task::Refuse(Refusal::Numbers)),
    }
}

// What a record leaves of a tally that is lent, and of its thread's own steps, where it counts already. A start sets those to 0; it is counted in
// the tally, and is unfinished until its row comes. A tally is lent as the depths are, by a slice that may be empty; its 65 numbers are C's. How
// much room they have is told here, in `count_row` and to those who carry out a file: each leaves another.
fn count_asked(tally: &mut [u32], own: &mut [u16; 4], t: usize, asked: Result<Asked, Refusal>)
    requires { (t < 4) × (length tally.old ≡ 65 → Room tally.old 1) }
    ensures { Told asked t tally.old own.old tally.new own.new }
{
    match asked {
        Ok(Asked::Step) => {}
        Ok(Asked::Start(action)) => {
            own[t] = 0;
            if let Some(cells) = tally.as_mut_array::<65>() {
                let a = usize::from(u8::from(action));
                cells[a] = cells[a] + 1;
                cells[24 + a] = cells[24 + a] + 1;
            }
        }
        Err(_) => {}
    }
}

// What a row leaves of a tally that is lent: yes or no, the n own steps of its operation, which was unfinished until then.
fn count_row(tally: &mut [u32], action: Action, yes: bool, n: u16)
    requires { (n ≤ 4096) × (length tally.old ≡ 65 → Room tally.old 4096 × (0 < get_or tally.old (place unfinished (action_number action)) 0)) }
    ensures { Closed (action_number action) yes n tally.old tally.new }
{
    if let Some(cells) = tally.as_mut_array::<65>() {
        let a = usize::from(u8::from(action));
        let answer = if yes { 8 + a } else { 16 + a };
        cells[answer] = cells[answer] + 1;
        cells[24 + a] = cells[24 + a] - 1;
        cells[32 + a] = cells[32 + a] + n as u32;
        cells[40 + a] = cells[40 + a].max(n as u32);
    }
}

// All records of a file that is not refused, from a fresh bench; the first one refused ends them. A thread's record changes where it lies; what
// decides a step gets a copy, made once the place is known, so that only the notes it reads are loaded. Version 1 has a way of its own to ask, so
// that it pays nothing for what the others have more (a long run takes no more than at the start: docs/DESIGN-PASS.md, "Speed"). `frames` has how
// many frames each thread has; the arrays that hold them may hold anything at first. A file that asks for no query has no frame and no result of a
// store, and may be lent no memory for them. A tally that is lent gets what the records add, counted as they come: `own` has the own steps of each
// thread's operation, of 16 bits, since an array of wider numbers takes a run of version 1 two to eight hundredths longer; every record counts in
// one place, before it is asked. An idle thread's notes are asked for where they are put: they are constants there. That the file is proper is
// told to the few that carry it out: a struct around C's slice would say the same, and each would open it. Which part decides a step below 60 is a
// match on ranges of places, 01's and 02's 4, 5 and 19: twelve parts with a function each, so that a function handed in for each would be no
// plainer. What each decides is settled at once: with one `settle` after the match a decision lies in memory, and 4,096 records of version 1 take
// 1.04 times as long, 256 records 1.15 times (docs/DESIGN-PASS.md, "Speed").
pub fn carry_out(
    nodes: &mut Nodes,
    depths: &mut [u16],
    results: &mut [Option<u64>],
    lent: &mut [Frame],
    tally: &mut [u32],
    schedule: &[u8],
    rows: &mut [u8],
) -> Standing
    requires { Proper schedule.now × ((table nodes.old ≡ (λ _. shape empty_base))
        × ((stores results.old ≡ (λ _. None)) × (Lent schedule.now depths.old × (Spare schedule.now results.old lent.old × Room tally.old 33554432)))) }
    ensures { Carried schedule.now (count_of schedule.now) (table nodes.new)
        depths.new (stores results.new) result rows.old rows.new
        × (Handed schedule.now (ended schedule.now).bench result lent.new × Added schedule.now tally.old tally.new) }
{
    let v = schedule::version_of(schedule);
    let mut threads = [machine::idle_notes(); 4];
    let mut frames = [0usize; 4];
    let mut own = [0u16; 4];
    let mut count = 0usize;
    let mut root = 0u8;
    let mut used = 1u16;
    let mut shown = 0u16;
    let on = v == 3;
    let mut finished = 0usize;
    let mut at = 0usize;
    let width = if v == 1 { 2 } else { 4 };
    for (k, bytes) in schedule[3..].chunks_exact(width).enumerate() {
        let x = bytes[0];
        let y = bytes[1];
        let t = (x / 16 % 4) as usize;
        let place = threads[t].place;
        own[t] = own[t] + 1;
        let mut extra = 0u16;
        let asked = if v == 1 {
            machine::ask(5, x, y, 0, place)
        } else {
            extra = extra_of(bytes);
            machine::ask(6, x, y, extra, place)
        };
        count_asked(tally, &mut own, t, asked);
        let job = match asked {
            Err(refusal) => Job::Task(Task::Refuse(refusal)),
            Ok(what) => match what {
                Asked::Step => {
                    let view = View {
                        nodes: &*nodes,
                        results: &results[..],
                        root,
                        used,
                        shown,
                        stop: Stop { on, count },
                    };
                    match place {
                        1 => {
                            if on {
                                threads[t].read = search::read_after(threads[t]);
                            }
                            let d = search::reach(nodes, threads[t], root);
                            settle(nodes, depths, &mut root, &mut used, &mut threads[t], d)
                        }
                        2 => {
                            if on {
                                threads[t].read = search::read_after(threads[t]);
                            }
                            let d = search::descend(nodes, on, threads[t]);
                            settle(nodes, depths, &mut root, &mut used, &mut threads[t], d)
                        }
                        3 => {
                            let d = search::examine(&view, threads[t]);
                            settle(nodes, depths, &mut root, &mut used, &mut threads[t], d)
                        }
                        4..=9 => {
                            count = recount(place, count);
                            let d = search::count(nodes, threads[t]);
                            settle(nodes, depths, &mut root, &mut used, &mut threads[t], d)
                        }
                        10..=13 => {
                            let d = swap::own(&view, threads[t], Quarter::from(place - 10));
                            settle(nodes, depths, &mut root, &mut used, &mut threads[t], d)
                        }
                        14..=18 => {
                            let d = search::unblock(&view, threads[t]);
                            settle(nodes, depths, &mut root, &mut used, &mut threads[t], d)
                        }
                        19..=25 => {
                            let d = join::approach(&view, threads[t]);
                            settle(nodes, depths, &mut root, &mut used, &mut threads[t], d)
                        }
                        26..=29 => {
                            let d = swap::found(&view, threads[t], Quarter::from(place - 26));
                            settle(nodes, depths, &mut root, &mut used, &mut threads[t], d)
                        }
                        30..=39 => {
                            let d = join::prepare(&view, threads[t]);
                            settle(nodes, depths, &mut root, &mut used, &mut threads[t], d)
                        }
                        40 => {
                            let d = complete::begin(&view, threads[t]);
                            settle(nodes, depths, &mut root, &mut used, &mut threads[t], d)
                        }
                        41..=44 => {
                            let d = swap::united(&view, threads[t], Quarter::from(place - 41));
                            settle(nodes, depths, &mut root, &mut used, &mut threads[t], d)
                        }
                        45..=59 => {
                            let d = complete::finish(&view, threads[t]);
                            settle(nodes, depths, &mut root, &mut used, &mut threads[t], d)
                        }
                        _ => Job::Task(Task::Step),
                    }
                }
                // a query's start has a frame
                Asked::Start(action) => {
                    threads[t] = machine::start(action, y, extra);
                    frames[t] = 0;
                    match action {
                        Action::Query => Job::Task(Task::Start),
                        _ => Job::Nothing,
                    }
                }
            },
        };
        match job {
            Job::Nothing => {}
            Job::Row(answer) => {
                count_row(tally, threads[t].action, u8::from(answer) == 1, own[t]);
                at = put_row(rows, at, v, t as u8, threads[t], answer, depths);
                finished += 1;
                threads[t] = machine::idle_notes();
                frames[t] = 0;
            }
            Job::Task(task) => {
                let left = query::round(
                    nodes,
                    depths,
                    results,
                    Counts { root, used, shown },
                    lent,
                    task,
                    t,
                    frames[t],
                    threads[t],
                );
                match left {
                    Ok(
                        Left::Goes {
                            counts,
                            place: to,
                            base,
                            frames: depth,
                        },
                    ) => {
                        root = counts.root;
                        used = counts.used;
                        shown = counts.shown;
                        threads[t].place = to;
                        threads[t].base = base;
                        frames[t] = depth;
                    }
                    Ok(Left::Found { counts, set }) => {
                        root = counts.root;
                        used = counts.used;
                        shown = counts.shown;
                        count_row(tally, threads[t].action, set != 0, own[t]);
                        at = query::put_found(rows, at, v, t as u8, threads[t], set);
                        finished += 1;
                        threads[t] = machine::idle_notes();
                        frames[t] = 0;
                    }
                    Err(refusal) => {
                        return Standing {
                            root,
                            used,
                            shown,
                            refusal: Err(refusal),
                            done: k,
                            finished,
                            at,
                            threads,
                            frames,
                            count,
                        };
                    }
                }
            }
        }
    }
    Standing {
        root,
        used,
        shown,
        refusal: Ok(()),
        done: schedule::count_of(schedule),
        finished,
        at,
        threads,
        frames,
        count,
    }
}

// The bytes of a row buffer that Run asks for.
#[tactic(auto, using(crate::proofs::Cases::room_cases))]
fn room_for(schedule: &[u8]) -> usize
    requires { Proper schedule.now }
    ensures { result ≡ row_room schedule.now (count_of schedule.now) }
{
    let count = schedule::count_of(schedule);
    match schedule::version_of(schedule) {
        1 => 2 * count,
        _ => 7 * count,
    }
}

// Whether a file from version 2 on is long or asks for a query: not if it has at most 64 records and none of them does. So many are looked at
// sooner than the memory for queries is cleared; the run of a longer file takes far longer than either. A loop: with `any` over the same `step_by`
// no proof closes.
pub fn may_ask(schedule: &[u8]) -> bool
    ensures { result ≡ false → Unasked schedule.now × (length schedule.now ≤ 259) }
{
    if 259 < schedule.len() {
        return true;
    }
    for from in (3..schedule.len()).step_by(4) {
        if schedule[from] % 16 == 6 {
            return true;
        }
    }
    false
}

// Whether Run can be asked of a file and a row buffer of `room` bytes. List and State have a `check` each, of another size and another refusal;
// History's is of version 1 alone, and of a size of its own.
pub fn check(schedule: &[u8], room: usize) -> Result<(), Refusal>
    ensures refusal { code_of result ≡ run_refusal schedule.now room }
    ensures proper { OnOk result (Proper schedule.now) }
{
    schedule::check(schedule)?;
    if room < room_for(schedule) {
        return Err(Refusal::RowBuffer);
    }
    Ok(())
}

// Run of a file that is not refused, with so many depths, results of stores, and frames. Each instance has a stack frame of its own: inlined,
// the depths of all would lie in one. List and State have a `report` each: what comes of the standing is a report here, a text and a state there.
// `Proper` and `Enough` are told to each of the three: they tie the file to the sizes, and a struct of the two would be made by its caller from the
// same two facts. The memory is fixed, for there is no heap. A tally that is lent gets what the records add.
#[inline(never)]
fn report<const DEPTHS: usize, const RESULTS: usize, const FRAMES: usize>(
    tally: &mut [u32],
    schedule: &[u8],
    rows: &mut [u8],
) -> Report
    requires proper { Proper schedule.now }
    requires enough { Enough schedule.now DEPTHS RESULTS FRAMES }
    requires room { by schedule.now 2 7 * count_of schedule.now ≤ length rows.old }
    requires tally { Room tally.old 33554432 }
    ensures report { result ≡ report_of (ended schedule.now) }
    ensures rows { rows.new ≡ overlay (ended schedule.now).rows rows.old }
    ensures tally { Added schedule.now tally.old tally.new }
{
    let mut nodes = nodes::fresh();
    let mut depths = [0u16; DEPTHS];
    let mut results = [None; RESULTS];
    let mut lent = [Frame::EMPTY; FRAMES];
    let p = carry_out(
        &mut nodes,
        &mut depths,
        &mut results,
        &mut lent,
        tally,
        schedule,
        rows,
    );
    Report {
        refusal: u64::from(code(p.refusal)),
        records: p.done as u64,
        rows: p.finished as u64,
        set: tree::set_below(&nodes, p.root, u64::MAX, 63),
        stored: tree::stored_below(&nodes, p.root, u64::MAX, 63),
        used: p.used as u64,
    }
}

// Run, and what the records of the file add to a tally, where one is lent. Version 1 has no use for depths; 64 records use at most 65 nodes, with
// 64 depths each.
fn run_counted(schedule: &[u8], rows: &mut [u8], tally: &mut [u32]) -> Report
    requires { Room tally.old 33554432 }
    ensures run { (result ≡ run_report schedule.now (length rows.old)) × (rows.new ≡ run_buffer schedule.now rows.old) }
    ensures tally { length tally.old ≡ 65 → numbers tally.new ≡ sum (numbers tally.old) (records_tally schedule.now (length rows.old)) }
{
    if let Err(r) = check(schedule, rows.len()) {
        return Report::from(r);
    }
    if schedule[0] == 1 {
        report::<0, 0, 0>(tally, schedule, rows)
    } else if may_ask(schedule) {
        report::<16384, 256, 16>(tally, schedule, rows)
    } else {
        report::<4160, 0, 0>(tally, schedule, rows)
    }
}

// Run: the report, and the rows in the buffer.
pub fn run(schedule: &[u8], rows: &mut [u8]) -> Report
    ensures { (result ≡ run_report schedule.now (length rows.old)) × (rows.new ≡ run_buffer schedule.now rows.old) }
{
    run_counted(schedule, rows, &mut [])
}

// Run, and what the records of the file add put into the tally that is lent: all but its refusal.
pub fn tallied(schedule: &[u8], rows: &mut [u8], tally: &mut [u32; 65]) -> Report
    requires { Room tally.old 33554432 }
    ensures { (result ≡ run_report schedule.now (length rows.old)) × ((rows.new ≡ run_buffer schedule.now rows.old)
        × (numbers tally.new ≡ sum (numbers tally.old) (records_tally schedule.now (length rows.old)))) }
{
    run_counted(schedule, rows, tally)
}
