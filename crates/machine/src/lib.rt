// One record of a schedule: what it asks of its thread, a start, and a step that has been decided.
#![tactic(auto, using(std::proofs::lemmas::Bool::Decides::nat_tests), unfolding(container::specs::Choice::ite))]

ghost use Rattle.std.specs.Prelude.{◌≡◌, []};
ghost use Rattle.nodes.specs.Table.{table};
ghost use Rattle.depths.specs.Rows.{rows};
ghost use Rattle.definitions.specs.Threads.{begun, idle};
ghost use Rattle.effects.specs.Writes.{effect_of};
ghost use Rattle.steps.specs.Decision.{thread};
ghost use Rattle.machine.specs.Asked.{asked, action_started, first_place, extra_of};
ghost use Rattle.machine.specs.Noted.{Noted};
ghost use Rattle.machine.specs.Enacted.{depth_by, Followed, Enacts};

use definitions::{Action, Answer, Nodes, Place, Refusal};
use effects::Write;
use steps::{Note, Notes};

// What a record that is not refused asks of its thread. No Option: a step is no lack of a start.
#[derive(Clone, Copy)]
pub enum Asked {
    Step,
    Start(Action),
}

// A start's last two bytes: a query's upper end, an insert's depth, or what has to be 0. Of a query y is the lower end.
fn check_extra(action: Action, y: u8, d: u16) -> Result<(), Refusal>
    ensures { result ≡ extra_of action y d }
{
    match action {
        Action::Query if 63 < d || d < y as u16 => Err(Refusal::UpperEnd),
        Action::Insert if 9999 < d => Err(Refusal::Depth),
        Action::Query | Action::Insert => Ok(()),
        _ if d == 0 => Ok(()),
        _ => Err(Refusal::UnusedBytes),
    }
}

// The action of a start, by its number; what no start has is a join. A match, since a number has no variant of itself. No TryFrom, since it
// never fails.
#[tactic(auto, unfolding(crate::specs::Asked::action_started))]
fn action_started(a: u8) -> Action
    ensures { result ≡ action_started a }
{
    match a {
        1 => Action::Lookup,
        2 => Action::Insert,
        3 => Action::Remove,
        4 => Action::Split,
        6 => Action::Query,
        _ => Action::Join,
    }
}

// What a record asks of its thread, which is at the given place; it is refused in 01's order. `last` is the last action of its version, which has
// the last two bytes d, or 0 where it has none. It is a number, since the record's number, which is held against it, need not be an action's.
#[tactic(auto, using(std::proofs::lemmas::Bool::Decides::nat_tests), unfolding(container::specs::Choice::ite, crate::specs::Asked::asked, crate::specs::Asked::asked_by))]
pub fn ask(last: u8, x: u8, y: u8, d: u16, place: Place) -> Result<Asked, Refusal>
    ensures { result ≡ asked last x y d place }
{
    if 3 < x / 16 {
        return Err(Refusal::Thread);
    }
    let a = x % 16;
    if a == 0 {
        if y != 0 || d != 0 {
            return Err(Refusal::UnusedBytes);
        }
        if place == 0 {
            return Err(Refusal::Idle);
        }
        return Ok(Asked::Step);
    }
    if last < a {
        return Err(Refusal::Action);
    }
    if 63 < y {
        return Err(Refusal::Station);
    }
    let action = action_started(a);
    check_extra(action, y, d)?;
    if place != 0 {
        return Err(Refusal::Busy);
    }
    Ok(Asked::Start(action))
}

// The notes of a thread that has noted an operation, at a place, and nothing else. The three parts of an operation are
// no struct: they are three fields of `Notes`, which steps read one by one, and travel together only from a record into these, and
// from a thread's notes at 82 into frames' `finish`.
fn notes_at(action: Action, station: u8, extra: u16, place: Place) -> Notes
    ensures { thread result [] ≡ begun action station extra place }
{
    Notes {
        action,
        station,
        extra,
        place,
        ..Notes::IDLE
    }
}

// Those of an idle thread.
pub fn idle_notes() -> Notes
    ensures { thread result [] ≡ idle }
{
    Notes::IDLE
}

// Those of a thread that has noted an operation: a query at 60, any other at 1. A query's frame lies apart.
pub fn start(action: Action, station: u8, extra: u16) -> Notes
    ensures { thread result [] ≡ begun action station extra (first_place action) }
{
    match action {
        Action::Query => notes_at(action, station, extra, 60),
        _ => notes_at(action, station, extra, 1),
    }
}

// The notes come to the new place, and have what is noted. A new frame lies apart. In place: a run whose notes are copied here takes 1.05 times as
// long.
pub fn note(th: &mut Notes, place: Place, note: Note)
    ensures { Noted th.old th.new note place }
{
    th.place = place;
    match note {
        Note::Nothing | Note::Opened => {}
        Note::Route(route) => th.route = route,
        Note::Base(base) => th.base = base,
        Note::Parent(parent) => th.parent = parent,
        Note::Side(left) => th.left = left,
        Note::Found(found) => th.found = found,
        Note::Neighbour(neighbour) => th.neighbour = neighbour,
        Note::Main { main, owner } => {
            th.main = main;
            th.owner = owner;
        }
        Note::Grandparent(grandparent) => th.grandparent = grandparent,
        Note::Other(other) => th.other = other,
    }
}

// The depths follow what a step writes, where they are lent. The nodes are those before it. Run's `query::lay` is the like for a range base: one
// function for both would take what is done with the depths as a closure, and be no plainer.
fn follow(nodes: &Nodes, depths: &mut [u16], w: Write)
    ensures { Followed (table nodes.now) depths.old (effect_of w) depths.new }
{
    if !depths.is_empty() {
        effects::deepen(nodes, depths, w);
    }
}

// What a step writes is carried out on the nodes, and on the depths where they are lent; gives the root. Apart from `enact`, so that a step that
// writes nothing does not pay for it.
#[inline(never)]
fn write(nodes: &mut Nodes, depths: &mut [u16], root: u8, used: u16, w: Write) -> u8
    ensures { Enacts (table nodes.old) depths.old root used (effect_of w) (table nodes.new) depths.new result }
{
    follow(nodes, depths, w);
    effects::apply(nodes, root, used, w)
}

// The same; most steps write nothing.
pub fn enact(nodes: &mut Nodes, depths: &mut [u16], root: u8, used: u16, w: Write) -> u8
    ensures { Enacts (table nodes.old) depths.old root used (effect_of w) (table nodes.new) depths.new result }
{
    match w {
        Write::Quiet => root,
        _ => write(nodes, depths, root, used, w),
    }
}

// The depth that a lookup found. 0 for any other answer, and no Option: it is what the row of such an answer shows.
pub fn depth_of(depths: &[u16], answer: Answer, s: u8) -> u16
    ensures { result ≡ depth_by answer (rows depths.now) s }
{
    match answer {
        Answer::At(x) => depths::depth_at(depths, x, s),
        _ => 0,
    }
}
