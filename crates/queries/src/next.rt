// 70 to 76 and 81: the way to the next base, its check, and the end. That a push has room (`HasRoom`) is told as in `first`, whose header has why.
#![tactic(auto, using(std::proofs::lemmas::Bool::Decides::nat_tests), unfolding(container::specs::Choice::ite, definitions::specs::Nodes::replaceable, definitions::specs::Queries::reached_next, definitions::specs::Steps::step, frames::specs::Outcomes::step_at, frames::specs::Turns::left_turn, frames::specs::Turns::pass_turn, crate::specs::Turns::next_turn))]

ghost use Rattle.std.specs.Prelude.{Ok};
ghost use Rattle.definitions.specs.Frames.{top_of};
ghost use Rattle.definitions.specs.Nodes.{kid_of};
ghost use Rattle.nodes.specs.Table.{table};
ghost use Rattle.nodes.specs.View.{seen};
ghost use Rattle.frames.specs.View.{held_frame, HasRoom};
ghost use Rattle.frames.specs.Outcomes.{Acts, step_at};
ghost use Rattle.queries.specs.Turns.{next_turn};

use super::arrive;
use definitions::Effect;
use frames::Outcome;
use frames::frame::Frame;
use nodes::View;

// 71 and 73: the child of the top route on one side is reached, and pushed. A route leads to 73, a base to 74.
fn go_to(view: &View, frame: &mut Frame, left: bool) -> Outcome
    requires { HasRoom (held_frame frame.old) }
    ensures { Acts (held_frame frame.old) (held_frame frame.new) (Ok result) (next_turn (table view.now.nodes.now) (kid_of left (table view.now.nodes.now (top_of (held_frame frame.old).stack)))) }
{
    let route = nodes::node_at(view.nodes, frame.stack.top());
    let place = match arrive(view.nodes, frame, nodes::kid_of(left, route)) {
        None => 73,
        Some(_) => 74,
    };
    Outcome::Onward {
        place,
        effect: Effect::Quiet,
    }
}

// 70 and 72 are alike but for the function of `walk` that takes the frame and the top route, and each states the step at its own place: one
// function of both would take that function as a closure, state of it only that it was called, and be no plainer.

// 70: the left child of the top route; is it the base popped?
pub fn look_left(view: &View, frame: &mut Frame) -> Outcome
    ensures { Acts (held_frame frame.old) (held_frame frame.new) (Ok result) (step_at 70 (seen view.now)) }
{
    let route = nodes::node_at(view.nodes, frame.stack.top());
    Outcome::Onward {
        place: frames::walk::look_left(frame, route),
        effect: Effect::Quiet,
    }
}

// 71: the right child of the top route.
pub fn go_right(view: &View, frame: &mut Frame) -> Outcome
    requires { HasRoom (held_frame frame.old) }
    ensures { Acts (held_frame frame.old) (held_frame frame.new) (Ok result) (step_at 71 (seen view.now)) }
{
    go_to(view, frame, false)
}

// 72: is the top route valid, with a greater key than the one noted? Else it is popped.
#[tactic(auto, using(crate::proofs::Places::at_72))]
pub fn go_up(view: &View, frame: &mut Frame) -> Outcome
    ensures { Acts (held_frame frame.old) (held_frame frame.new) (Ok result) (step_at 72 (seen view.now)) }
{
    let route = nodes::node_at(view.nodes, frame.stack.top());
    Outcome::Onward {
        place: frames::walk::ascend(frame, route),
        effect: Effect::Quiet,
    }
}

// 73: the left child of the top route.
pub fn go_left(view: &View, frame: &mut Frame) -> Outcome
    requires { HasRoom (held_frame frame.old) }
    ensures { Acts (held_frame frame.old) (held_frame frame.new) (Ok result) (step_at 73 (seen view.now)) }
{
    go_to(view, frame, true)
}

// 74: the result of the frame's store.
#[tactic(auto, using(crate::proofs::Places::at_74))]
pub fn meet(view: &View, frame: &mut Frame) -> Outcome
    ensures { Acts (held_frame frame.old) (held_frame frame.new) (Ok result) (step_at 74 (seen view.now)) }
{
    let found = nodes::result_at(view.results, frame.store_number());
    let base = nodes::node_at(view.nodes, frame.base);
    Outcome::Onward {
        place: frames::walk::meet(frame, found, base),
        effect: Effect::Quiet,
    }
}

// 76: is the base in hand replaceable?
pub fn check_next(view: &View, frame: &Frame) -> Outcome
    ensures { Acts (held_frame frame.now) (held_frame frame.now) (Ok result) (step_at 76 (seen view.now)) }
{
    let check = nodes::check(view.nodes, view.results, frame.base);
    frames::swap::pass(frame, nodes::is_replaceable(check))
}

// 81: the result, if it is unset.
pub fn fill(view: &View, frame: &Frame) -> Outcome
    ensures { Acts (held_frame frame.now) (held_frame frame.now) (Ok result) (step_at 81 (seen view.now)) }
{
    let found = nodes::result_at(view.results, frame.store_number());
    Outcome::Onward {
        place: 82,
        effect: frames::walk::fill(frame, found),
    }
}
