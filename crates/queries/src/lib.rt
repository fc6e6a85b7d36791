// Places 60 to 82 of range queries (docs/RANGE.md): one step of a thread that stands there, decided and, as far as its frames go, carried out
// where they lie. It reads the nodes and the stores, and writes neither: what it writes there is in its outcome.
#![tactic(auto, unfolding(container::specs::Choice::ite))]

ghost use Rattle.std.specs.Prelude.{◌≡◌, ◌≤◌, None, Some};
ghost use Rattle.container.specs.Choice.{ite};
ghost use Rattle.definitions.specs.Frames.{pushed, in_hand};
ghost use Rattle.definitions.specs.Nodes.{is_route};
ghost use Rattle.nodes.specs.Table.{table};
ghost use Rattle.definitions.specs.Places.{place_of};
ghost use Rattle.definitions.specs.Steps.{step};
ghost use Rattle.nodes.specs.View.{seen};
ghost use Rattle.frames.specs.View.{held, frames_of, held_frame, HasRoom};
ghost use Rattle.frames.specs.Outcomes.{Takes, Stands, Room};
ghost use Rattle.queries.specs.Turns.{Bare, depth_after};

use definitions::{Effect, Node, Nodes, Place};
use frames::frame::Frame;
use frames::owner::Owner;
use frames::{Frames, Outcome, Shortage};
use nodes::View;
use steps::Notes;

pub mod first; // 60 to 62: the way to the first base, and its check
pub mod next; // 70 to 76, 81: the way to the next base, its check, and the end
pub mod swap; // 64 to 67, 77 to 80: a base is swapped for a range base
pub mod place; // the places 60 to 81 by their numbers

// Node x is reached on the way to the first base or the next, and pushed: a base is in hand, and given; a route is not.
#[inline]
fn arrive(nodes: &Nodes, frame: &mut Frame, x: u8) -> Option<Node>
    requires { HasRoom (held_frame frame.old) }
    ensures base { result ≡ ite (is_route (table nodes.now x).kind) None (Some (table nodes.now x)) }
    ensures pushed { held_frame frame.new ≡ ite (is_route (table nodes.now x).kind) (pushed x (held_frame frame.old).stack (held_frame frame.old)) (in_hand x (held_frame frame.old).stack (held_frame frame.old)) }
{
    let node = nodes::node_at(nodes, x);
    if nodes::is_route(node.kind) {
        frame.stack.push(x);
        None
    } else {
        frame.push_base(x);
        Some(node)
    }
}

// A thread without frames: in no run does one come here.
fn bare(place: Place) -> Result<Outcome, Shortage>
    requires { 60 ≤ place }
    ensures { Bare result place }
{
    match place {
        63 | 68 | 69 | 75 | 83.. => Ok(Outcome::Onward {
            place,
            effect: Effect::Quiet,
        }),
        _ => Err(Shortage::Nodes),
    }
}

// One step of a thread, which has the notes th and stands at a place from 60 on; a query was asked for the stations from `station` to `extra`.
// A switch on the place: 82 ends the frame on top, every other place leaves it on top. A function handed in for each place would be no plainer.
pub fn query(view: &View, frames: &mut Frames, owner: Owner, th: Notes) -> Result<Outcome, Shortage>
    requires place { 60 ≤ th.place }
    requires room { Room th.place (frames_of (held frames.old) owner.thread owner.depth) }
    ensures { Takes (held frames.old) (held frames.new) owner.thread owner.depth result (Stands th.place th.action th.station th.extra) (step (place_of th.place) (seen view.now)) }
{
    let Some(top) = owner.top() else {
        return bare(th.place);
    };
    if th.place == 82 {
        let store = frames[top].store_number();
        let found = nodes::result_at(view.results, store);
        return frames::finish(frames, owner, found, th.action, th.station, th.extra);
    }
    place::act(view, &mut frames[top], th.place)
}

// How many frames the thread has after it, of `depth`; a refused step leaves them.
pub fn frames_after(r: Result<Outcome, Shortage>, depth: usize) -> usize
    ensures { result ≡ depth_after r depth }
{
    match r {
        Ok(Outcome::Onward { .. }) | Ok(Outcome::Blocked(_)) | Err(_) => depth,
        Ok(Outcome::Back(_)) => depth.saturating_sub(1),
        Ok(Outcome::Found(_)) => 0,
    }
}
