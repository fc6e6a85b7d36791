// 60 to 62: the way to the first base, and its check. That a push has room (`HasRoom`) is told from `query` down, which is told it of every run: a
// type for a frame with room would be made anew at each step, and be no plainer.
#![tactic(auto, using(std::proofs::lemmas::Bool::Decides::nat_tests), unfolding(container::specs::Choice::ite, definitions::specs::Queries::reached_first, definitions::specs::Steps::step, frames::specs::Outcomes::step_at, frames::specs::Turns::found_turn, crate::specs::Turns::first_turn))]

ghost use Rattle.std.specs.Prelude.{Ok};
ghost use Rattle.nodes.specs.Table.{table};
ghost use Rattle.nodes.specs.View.{seen};
ghost use Rattle.frames.specs.View.{held_frame, HasRoom};
ghost use Rattle.frames.specs.Turns.{Goes};
ghost use Rattle.frames.specs.Outcomes.{Acts, step_at};
ghost use Rattle.queries.specs.Turns.{first_turn};

use super::arrive;
use definitions::{Effect, Nodes, Place};
use frames::Outcome;
use frames::frame::Frame;
use nodes::View;

// Node x is reached on the way to the first base, and pushed: a route leads to 61, a base to what found first says of it.
fn reach(nodes: &Nodes, frame: &mut Frame, x: u8) -> Place
    requires { HasRoom (held_frame frame.old) }
    ensures { Goes (held_frame frame.old) (held_frame frame.new) result (first_turn (table nodes.now) x) }
{
    match arrive(nodes, frame, x) {
        None => 61,
        Some(base) => frames::turn::found_first(frame, base),
    }
}

// 60: the stack is emptied, and the root is read.
pub fn read_root(view: &View, frame: &mut Frame) -> Outcome
    ensures { Acts (held_frame frame.old) (held_frame frame.new) (Ok result) (step_at 60 (seen view.now)) }
{
    frame.stack.clear();
    Outcome::Onward {
        place: reach(view.nodes, frame, view.root),
        effect: Effect::Quiet,
    }
}

// 61: the child of the top route by the lower end.
pub fn go_down(view: &View, frame: &mut Frame) -> Outcome
    requires { HasRoom (held_frame frame.old) }
    ensures { Acts (held_frame frame.old) (held_frame frame.new) (Ok result) (step_at 61 (seen view.now)) }
{
    let route = nodes::node_at(view.nodes, frame.stack.top());
    let x = nodes::child_for(frame.lower, route);
    Outcome::Onward {
        place: reach(view.nodes, frame, x),
        effect: Effect::Quiet,
    }
}

// 62: is the base in hand replaceable?
#[tactic(auto, using(crate::proofs::Places::at_62))]
pub fn check_first(view: &View, frame: &mut Frame) -> Outcome
    ensures { Acts (held_frame frame.old) (held_frame frame.new) (Ok result) (step_at 62 (seen view.now)) }
{
    let check = nodes::check(view.nodes, view.results, frame.base);
    frames::swap::ride(frame, check)
}
