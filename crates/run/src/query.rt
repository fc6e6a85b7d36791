// A step at a place from 60 on: of a range query, or of helping one. It is decided and carried out here, apart from the other steps: what
// they call has one caller, and they pay nothing for queries.
ghost use Rattle.std.specs.Prelude.{◌≡◌, ◌%◌, ◌<◌, ◌≤◌, None};
ghost use Rattle.nodes.specs.Table.{table};
ghost use Rattle.nodes.specs.Stores.{stores};
ghost use Rattle.frames.specs.View.{held, frames_of};
ghost use Rattle.frames.specs.Outcomes.{Room, Opens};
ghost use Rattle.buffer.specs.Page.{page, put_all};
ghost use Rattle.buffer.specs.Writes.{Writes};
ghost use Rattle.definitions.specs.Threads.{new_frame};
ghost use Rattle.run.specs.Query.{Ranged, Laid, Wrote, helping, Leaves, Able, Due, Rounds, found_row};

use buffer::Page;
use definitions::{Effect, Nodes, Place, Refusal, Stop, Version};
use frames::frame::Frame;
use frames::owner::Owner;
use frames::{Frames, Outcome};
use nodes::{Results, View};
use steps::Notes;

// The root and the counts after what a step writes. `Standing` has the three by themselves: each is read by itself there.
#[derive(Clone, Copy)]
pub struct Counts {
    pub root: u8,
    pub used: u16,
    pub shown: u16,
}

// What has to do with frames.
#[derive(Clone, Copy)]
pub enum Task {
    // a thread has started a query
    Start,
    // it has reached a range base, whose query it is to help
    Help,
    // it goes back where its frames lead
    Back,
    // a step at a place from 60 on
    Step,
    // its record is refused
    Refuse(Refusal),
}

// What it leaves. Where its record is refused nothing changes.
#[derive(Clone, Copy)]
pub enum Left {
    // its thread goes on, with this place, this base and so many frames
    Goes {
        counts: Counts,
        place: Place,
        base: u8,
        frames: usize,
    },
    // it has found the set
    Found {
        counts: Counts,
        set: u64,
    },
}

// The depths of a range base are those of the base that it replaces, where its own are lent.
fn lay(depths: &mut [u16], from: u8, to: u8)
    ensures { Laid depths.old from to depths.new }
{
    if !depths.is_empty() {
        effects::deepen_range(depths, to, from);
    }
}

// What a step writes, a range base or a result, is carried out. The borrowed memory and the counts stand side by side, here and in the functions
// below that hand them on: a struct of them would be made at each record and taken apart again, for a step reads nodes and results through a
// `View` while it changes the frames.
fn write(
    nodes: &mut Nodes,
    depths: &mut [u16],
    results: &mut Results,
    counts: Counts,
    e: Effect,
) -> Counts
    requires { Ranged e }
    ensures { Wrote (table nodes.old) depths.old (stores results.old) counts.root counts.used counts.shown e
        (table nodes.new) depths.new (stores results.new) result }
{
    match e {
        Effect::Ask {
            spot,
            at,
            parent,
            base,
            lower,
            upper,
            store,
            fresh,
        } => {
            lay(depths, base, at);
            Counts {
                root: effects::ask(
                    nodes,
                    counts.root,
                    spot,
                    at,
                    parent,
                    base,
                    lower,
                    upper,
                    store,
                ),
                used: at as u16 + 1,
                shown: effects::shown_after(counts.shown, store, fresh),
            }
        }
        Effect::Fill { store, set } => {
            nodes::fill(results, store, set);
            counts
        }
        _ => counts,
    }
}

// ---- a new frame

// A query's own, from y to d, of a thread that has no other.
pub fn start(frames: &mut Frames, owner: Owner, y: u8, d: u16)
    ensures { Opens (held frames.old) (held frames.new) owner.thread 0 (new_frame y (d % 256) None) }
{
    let [_, upper] = d.to_be_bytes();
    frames::enter(frames, Owner::new(owner.thread, 0), y, upper, None);
}

// One on top, for the range base that the thread's notes th have: the base's query is helped in it.
pub fn help(nodes: &Nodes, frames: &mut Frames, owner: Owner, th: Notes)
    requires { owner.depth < 4 }
    ensures { Opens (held frames.old) (held frames.new) owner.thread owner.depth (helping (table nodes.now th.base)) }
{
    let b = nodes::node_at(nodes, th.base);
    frames::enter(frames, owner, b.lower, b.upper, Some(b.store));
}

// ---- a step

// One step of a thread, which has the notes th, at a place from 60 on. It sees nothing of the stop.
pub fn turn(
    nodes: &mut Nodes,
    depths: &mut [u16],
    results: &mut Results,
    counts: Counts,
    frames: &mut Frames,
    owner: Owner,
    th: Notes,
) -> Result<Left, Refusal>
    requires place { 60 ≤ th.place }
    requires room { Room th.place (frames_of (held frames.old) owner.thread owner.depth) }
    ensures { Leaves (table nodes.old) depths.old (stores results.old) counts.root counts.used counts.shown
        (held frames.old) owner.thread owner.depth th (table nodes.new)
        depths.new (stores results.new) (held frames.new) result }
{
    // a view borrows the memory that is written to below, so it is put together for this step alone
    let view = View {
        nodes: &*nodes,
        results: &results[..],
        root: counts.root,
        used: counts.used,
        shown: counts.shown,
        stop: Stop {
            on: false,
            count: 0,
        },
    };
    let outcome = queries::query(&view, frames, owner, th);
    let left = queries::frames_after(outcome, owner.depth);
    let r = outcome?;
    match r {
        Outcome::Onward { place, effect } => {
            let counts = write(nodes, depths, results, counts, effect);
            Ok(Left::Goes {
                counts,
                place,
                base: th.base,
                frames: left,
            })
        }
        Outcome::Blocked(x) => Ok(Left::Goes {
            counts,
            place: 15,
            base: x,
            frames: left,
        }),
        Outcome::Back(place) => Ok(Left::Goes {
            counts,
            place,
            base: th.base,
            frames: left,
        }),
        Outcome::Found(set) => Ok(Left::Found { counts, set }),
    }
}

// What has to do with frames, of a thread that has the notes th.
fn act(
    nodes: &mut Nodes,
    depths: &mut [u16],
    results: &mut Results,
    counts: Counts,
    frames: &mut Frames,
    task: Task,
    owner: Owner,
    th: Notes,
) -> Result<Left, Refusal>
    requires { Able task owner.thread owner.depth th (held frames.old) }
    ensures { Rounds task (table nodes.old) depths.old (stores results.old) counts.root counts.used counts.shown
        (held frames.old) owner.thread owner.depth th (table nodes.new) depths.new (stores results.new) (held frames.new) result }
{
    match task {
        Task::Start => {
            start(frames, owner, th.station, th.extra);
            Ok(Left::Goes {
                counts,
                place: th.place,
                base: th.base,
                frames: 1,
            })
        }
        Task::Help => {
            help(nodes, frames, owner, th);
            Ok(Left::Goes {
                counts,
                place: th.place,
                base: th.base,
                frames: owner.depth + 1,
            })
        }
        Task::Back => Ok(Left::Goes {
            counts,
            place: frames::leave(frames, owner),
            base: th.base,
            frames: owner.depth,
        }),
        Task::Step => turn(nodes, depths, results, counts, frames, owner, th),
        Task::Refuse(refusal) => Err(refusal),
    }
}

// The same of thread t, which has `depth` frames, over the memory that is lent. A refusal, and a way back without frames, need none. t and depth
// are numbers, as the loop has them: an `Owner` is made where the frames are there, of the bounds that `Due` states.
pub fn round(
    nodes: &mut Nodes,
    depths: &mut [u16],
    results: &mut [Option<u64>],
    counts: Counts,
    lent: &mut [Frame],
    task: Task,
    t: usize,
    depth: usize,
    th: Notes,
) -> Result<Left, Refusal>
    requires { Due task t depth th results.old lent.old }
    ensures { Rounds task (table nodes.old) depths.old (stores results.old) counts.root counts.used counts.shown
        (held lent.old) t depth th (table nodes.new) depths.new (stores results.new) (held lent.new) result }
{
    match task {
        Task::Refuse(refusal) => Err(refusal),
        Task::Back if depth == 0 => Ok(Left::Goes {
            counts,
            place: 1,
            base: th.base,
            frames: 0,
        }),
        _ => match lent.as_mut_array() {
            Some(frames) => match results.as_mut_array() {
                Some(results) => {
                    let owner = Owner::new(t, depth);
                    act(nodes, depths, results, counts, frames, task, owner, th)
                }
                None => unreachable!(),
            },
            None => unreachable!(),
        },
    }
}

// ---- its row

// The row of thread t, which was th and has found the set c, in a file of version v: 1 if that has a station, and the set.
fn write_found(page: &mut Page, v: Version, t: u8, th: Notes, c: u64)
    ensures { Writes page.old page.new (found_row v t th c) }
{
    page.put_all(&[t, u8::from(th.action), th.station, u8::from(c != 0)]);
    if v != 1 {
        super::put_wider(page, 0, c);
    }
}

// The same into the lent buffer, from `at` on; gives where the next one goes.
pub fn put_found(rows: &mut [u8], at: usize, v: Version, t: u8, th: Notes, c: u64) -> usize
    ensures { page rows.new result ≡ put_all (page rows.old at) (found_row v t th c) }
{
    let mut page = Page { bytes: rows, at };
    write_found(&mut page, v, t, th, c);
    page.at
}
