// 64 to 67 and 77 to 80: a base is swapped for a range base.
#![tactic(auto, using(crate::proofs::Places::swap_cases))]

ghost use Rattle.std.specs.Prelude.{◌≡◌, ◌≤◌, ◌<◌};
ghost use Rattle.definitions.specs.Steps.{probe};
ghost use Rattle.nodes.specs.Table.{table};
ghost use Rattle.nodes.specs.View.{seen};
ghost use Rattle.frames.specs.View.{held_frame};
ghost use Rattle.frames.specs.Outcomes.{Acts, step_at};

use definitions::{Node, Place, Probe, Quarter};
use frames::frame::Frame;
use frames::{Outcome, Shortage};
use nodes::View;

// One of the four steps of a swap, for the base in hand.
fn look(view: &View, frame: &Frame, base: Node, quarter: Quarter) -> Probe
    ensures { result ≡ probe quarter base.parent (table view.now.nodes.now) view.now.root frame.now.base }
{
    steps::swap::look(view.nodes, view.root, base.parent, frame.base, quarter)
}

// 64 to 67: the swap of the first base for a range base with a new store. It is not one function with `go_on`: each has its first place, and
// asks its own of the frame, so one would be a switch.
pub fn open(view: &View, frame: &mut Frame, place: Place) -> Result<Outcome, Shortage>
    requires low { 64 ≤ place }
    requires high { place < 68 }
    ensures { Acts (held_frame frame.old) (held_frame frame.new) result (step_at place (seen view.now)) }
{
    let base = nodes::node_at(view.nodes, frame.base);
    let found = look(view, frame, base, Quarter::from(place - 64));
    frames::swap::open_at(frame, found, base, view.used, view.shown)
}

// 77 to 80: the swap of the next base for a range base of the frame's store. Inlined: by a call the view lies in memory, made anew at every step
// from 60 on, and queries over one base take 1.3 times as long.
#[inline(always)]
pub fn go_on(view: &View, frame: &mut Frame, place: Place) -> Result<Outcome, Shortage>
    requires low { 77 ≤ place }
    requires high { place < 81 }
    ensures { Acts (held_frame frame.old) (held_frame frame.new) result (step_at place (seen view.now)) }
{
    let base = nodes::node_at(view.nodes, frame.base);
    let found = look(view, frame, base, Quarter::from(place - 77));
    frames::swap::go_on(frame, found, base, view.used)
}
