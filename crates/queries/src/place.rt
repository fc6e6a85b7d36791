// The places 60 to 81 by their numbers, for the frame on top. A number that no place has leaves the thread where it is.
ghost use Rattle.std.specs.Prelude.{◌≡◌, ◌≤◌, ◌<◌};
ghost use Rattle.nodes.specs.View.{seen};
ghost use Rattle.frames.specs.View.{held_frame, HasRoom};
ghost use Rattle.frames.specs.Outcomes.{Acts, step_at};

use super::{first, next, swap};
use definitions::{Effect, Place};
use frames::frame::Frame;
use frames::{Outcome, Shortage};
use nodes::View;

// A match on the place, here and in `bare`: an arm is a place of docs/RANGE.md, or several, or the numbers that no place has. A function handed
// in for each would be no plainer.
#[tactic(auto, using(crate::proofs::Dispatch::stays))]
pub fn act(view: &View, frame: &mut Frame, place: Place) -> Result<Outcome, Shortage>
    requires from { 60 ≤ place }
    requires not_82 { place ≡ 82 → ⊥ }
    requires room { (place ≡ 60 → ⊥) → place < 81 → HasRoom (held_frame frame.old) }
    ensures { Acts (held_frame frame.old) (held_frame frame.new) result (step_at place (seen view.now)) }
{
    match place {
        60 => Ok(first::read_root(view, frame)),
        61 => Ok(first::go_down(view, frame)),
        62 => Ok(first::check_first(view, frame)),
        64..=67 => swap::open(view, frame, place),
        70 => Ok(next::look_left(view, frame)),
        71 => Ok(next::go_right(view, frame)),
        72 => Ok(next::go_up(view, frame)),
        73 => Ok(next::go_left(view, frame)),
        74 => Ok(next::meet(view, frame)),
        76 => Ok(next::check_next(view, frame)),
        77..=80 => swap::go_on(view, frame, place),
        81 => Ok(next::fill(view, frame)),
        _ => Ok(Outcome::Onward {
            place,
            effect: Effect::Quiet,
        }),
    }
}
