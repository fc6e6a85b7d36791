// The frames of range queries, changed in place (docs/RANGE.md). Frame t * 4 of thread t is the lowest; it has four. Nothing here reads nodes or
// stores: what a place reads of them is handed in.
#![tactic(auto)]

ghost use Rattle.std.specs.Prelude.{◌≡◌, ◌<◌};
ghost use Rattle.definitions.specs.Frames.{between};
ghost use Rattle.definitions.specs.Threads.{new_frame};
ghost use Rattle.frames.specs.View.{held};
ghost use Rattle.frames.specs.Turns.{Backs, end_turn};
ghost use Rattle.frames.specs.Outcomes.{Takes, Stands, Opens};

use definitions::{Action, Effect, Place, Refusal};
use frame::Frame;
use owner::Owner;

pub mod stack; // a stack of node numbers
pub mod frame; // a frame, and what changes its stacks
pub mod owner; // a thread, and how many frames it has
pub mod turn; // what costs no step: next, add, back, found first
pub mod walk; // 70, 72, 74, 81
pub mod swap; // 62, 64 to 67, 76, 77 to 80

// The frames of four threads.
pub type Frames = [Frame; 16];

// What a step of a range query leaves to its thread.
#[derive(Clone, Copy)]
pub enum Outcome {
    // it goes on to a place, with as many frames, and this is written
    Onward { place: Place, effect: Effect },
    // the base in hand is in the way: it goes on to 15, with this base
    Blocked(u8),
    // its top frame ends, and it goes back to a place
    Back(Place),
    // it finishes, and these are the stations found
    Found(u64),
}

// What a step has run out of: node numbers, or stores. It is refused.
#[derive(Clone, Copy)]
pub enum Shortage {
    Nodes,
    Stores,
}

impl From<Shortage> for Refusal {
    ghost use Rattle.frames.specs.Outcomes.{refusal_for};

    ghost from_gives = { λ s r. r ≡ refusal_for s };

    fn from(s: Shortage) -> Refusal {
        match s {
            Shortage::Nodes => Refusal::Numbers,
            Shortage::Stores => Refusal::Stores,
        }
    }
}

// Back, where its frames lead: the end of helping (3, 15, 16, 40, 51), and of a frame (82).
pub fn leave(frames: &mut Frames, owner: Owner) -> Place
    ensures { Backs (held frames.old) (held frames.new) owner.thread owner.depth result }
{
    match owner.top() {
        None => 1,
        Some(top) => turn::back(&mut frames[top]),
    }
}

// The stations from l to h, both inside.
#[tactic(auto, using(crate::proofs::Ends::within_low, crate::proofs::Ends::within_all))]
fn within(l: u8, h: u16) -> u64
    ensures { result ≡ between l h }
{
    let c = container::upper(u64::MAX, l);
    if h < 63 {
        return container::lower(c, h as u8 + 1);
    }
    c
}

// 82: the top frame ends; the result of its store is `found`. A query was asked for the stations from `station` to `extra`: three of the
// notes that crate steps has a struct of, and this crate needs nothing of it.
#[tactic(auto, unfolding(container::specs::Choice::ite, crate::specs::Turns::end_turn))]
pub fn finish(
    frames: &mut Frames,
    owner: Owner,
    found: Option<u64>,
    action: Action,
    station: u8,
    extra: u16,
) -> Result<Outcome, Shortage>
    ensures { Takes (held frames.old) (held frames.new) owner.thread owner.depth result (Stands 82 action station extra) (end_turn found) }
{
    if owner.depth == 0 {
        return Err(Shortage::Nodes);
    }
    let Some(c) = found else {
        return Err(Shortage::Nodes);
    };
    if owner.depth != 1 {
        return Ok(Outcome::Back(leave(frames, owner.below())));
    }
    if action == Action::Query {
        return Ok(Outcome::Found(container::common(c, within(station, extra))));
    }
    Ok(Outcome::Back(1))
}

// A new frame on top: a query's own at its start, or one with the ends and store of a range base that is in the way at 3 or 15.
pub fn enter(frames: &mut Frames, owner: Owner, l: u8, h: u8, k: Option<u8>)
    requires room { owner.depth < 4 }
    ensures { Opens (held frames.old) (held frames.new) owner.thread owner.depth (new_frame l h k) }
{
    frames[owner.free()] = Frame::new(l, h, k);
}
