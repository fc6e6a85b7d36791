// 70, 72, 74 and 81: from one base to the next, and the end of it. What is read of nodes and stores is handed in.
#![tactic(auto, using(std::proofs::lemmas::Bool::Decides::nat_tests, crate::proofs::Turns::add_alike), unfolding(container::specs::Choice::ite, crate::specs::Turns::add_turn, crate::specs::Turns::left_turn, crate::specs::Turns::up_turn, crate::specs::Turns::meet_turn))]

ghost use Rattle.std.specs.Prelude.{◌≡◌, cond, false, ltb};
ghost use Rattle.frames.specs.View.{held_frame};
ghost use Rattle.frames.specs.Turns.{Goes, left_turn, up_turn, meet_turn, fill_effect};

use super::frame::Frame;
use super::turn;
use definitions::{Effect, Node, Place};

// Is the route valid, with its key over k?
fn above(k: u8, route: Node) -> bool
    ensures { result ≡ cond route.invalid false (ltb k route.key) }
{
    !route.invalid && k < route.key
}

// 70, with the top route.
pub fn look_left(frame: &mut Frame, route: Node) -> Place
    ensures { Goes (held_frame frame.old) (held_frame frame.new) result (left_turn route) }
{
    if route.left == frame.popped {
        return 71;
    }
    frame.key = route.key;
    72
}

// 72, with the top route.
pub fn ascend(frame: &mut Frame, route: Node) -> Place
    ensures { Goes (held_frame frame.old) (held_frame frame.new) result (up_turn route) }
{
    if above(frame.key, route) {
        return 71;
    }
    frame.stack.pop();
    if frame.stack.is_empty() { 81 } else { 72 }
}

// 74, with the result of the frame's store and the base in hand.
pub fn meet(frame: &mut Frame, found: Option<u64>, base: Node) -> Place
    ensures { Goes (held_frame frame.old) (held_frame frame.new) result (meet_turn found base) }
{
    match found {
        Some(_) => 82,
        None => {
            if turn::is_of(frame.store_number(), base) {
                return turn::add(frame, base.container);
            }
            76
        }
    }
}

// 81: what it writes, by the result of the frame's store; it leads to 82.
pub fn fill(frame: &Frame, found: Option<u64>) -> Effect
    ensures { result ≡ fill_effect found (held_frame frame.now) }
{
    match found {
        Some(_) => Effect::Quiet,
        None => Effect::Fill {
            store: frame.store_number(),
            set: frame.done,
        },
    }
}
