// 62, 64 to 67, 76 and 77 to 80: a base is checked and swapped for a range base. What is read of nodes and stores is handed in.
#![tactic(auto, using(std::proofs::lemmas::Bool::Decides::nat_tests, crate::proofs::Turns::alike_cases), unfolding(container::specs::Choice::ite, definitions::specs::Queries::opened_by, definitions::specs::Frames::back, crate::specs::Turns::begin_turn, crate::specs::Turns::extend_turn, crate::specs::Turns::ride_turn, crate::specs::Turns::pass_turn, crate::specs::Turns::open_turn, crate::specs::Turns::go_on_turn))]

ghost use Rattle.std.specs.Prelude.{Ok};
ghost use Rattle.frames.specs.View.{held_frame};
ghost use Rattle.frames.specs.Turns.{ride_turn, pass_turn, open_turn, go_on_turn};
ghost use Rattle.frames.specs.Outcomes.{Acts};

use super::frame::Frame;
use super::{Outcome, Shortage, turn};
use definitions::{Check, Effect, Node, Probe};

// 62: what the check of the base in hand answers. A range base that reaches as far is ridden on (piggyback).
pub fn ride(frame: &mut Frame, check: Check) -> Outcome
    ensures { Acts (held_frame frame.old) (held_frame frame.new) (Ok result) (ride_turn check) }
{
    match check {
        Check::Replaceable => Outcome::Onward {
            place: 64,
            effect: Effect::Quiet,
        },
        Check::Preparing(_) | Check::Completing(_) | Check::Stale => Outcome::Blocked(frame.base),
        Check::Unset {
            lower,
            upper,
            store,
        } => {
            if frame.upper <= upper {
                frame.lower = lower;
                frame.upper = upper;
                frame.store = Some(store);
                return Outcome::Onward {
                    place: 60,
                    effect: Effect::Quiet,
                };
            }
            Outcome::Blocked(frame.base)
        }
    }
}

// 76: is the base in hand replaceable?
pub fn pass(frame: &Frame, free: bool) -> Outcome
    ensures { Acts (held_frame frame.now) (held_frame frame.now) (Ok result) (pass_turn free) }
{
    if free {
        return Outcome::Onward {
            place: 77,
            effect: Effect::Quiet,
        };
    }
    Outcome::Blocked(frame.base)
}

// 64 to 67, with what the comparison found and the base in hand. It is not one function with `go_on`: they differ in store, places and what a
// miss leads to, so one would be a switch.
pub fn open_at(
    frame: &mut Frame,
    seen: Probe,
    base: Node,
    used: u16,
    shown: u16,
) -> Result<Outcome, Shortage>
    ensures { Acts (held_frame frame.old) (held_frame frame.new) result (open_turn seen base used shown) }
{
    match seen {
        Probe::Hit(spot) => {
            let Ok(at) = u8::try_from(used) else {
                return Err(Shortage::Nodes);
            };
            let Ok(store @ ..=63) = u8::try_from(shown) else {
                return Err(Shortage::Stores);
            };
            let effect = Effect::Ask {
                spot,
                at,
                parent: base.parent,
                base: frame.base,
                lower: frame.lower,
                upper: frame.upper,
                store,
                fresh: true,
            };
            let place = turn::begin(frame, at, store, base.container);
            Ok(Outcome::Onward { place, effect })
        }
        Probe::Next(quarter) => Ok(Outcome::Onward {
            place: quarter.place_from(64),
            effect: Effect::Quiet,
        }),
        Probe::Miss => Ok(Outcome::Onward {
            place: 60,
            effect: Effect::Quiet,
        }),
    }
}

// 77 to 80, likewise.
pub fn go_on(frame: &mut Frame, seen: Probe, base: Node, used: u16) -> Result<Outcome, Shortage>
    ensures { Acts (held_frame frame.old) (held_frame frame.new) result (go_on_turn seen base used) }
{
    match seen {
        Probe::Hit(spot) => {
            let Ok(at) = u8::try_from(used) else {
                return Err(Shortage::Nodes);
            };
            let effect = Effect::Ask {
                spot,
                at,
                parent: base.parent,
                base: frame.base,
                lower: frame.lower,
                upper: frame.upper,
                store: frame.store_number(),
                fresh: false,
            };
            let place = turn::extend(frame, at, base.container);
            Ok(Outcome::Onward { place, effect })
        }
        Probe::Next(quarter) => Ok(Outcome::Onward {
            place: quarter.place_from(77),
            effect: Effect::Quiet,
        }),
        Probe::Miss => Ok(Outcome::Onward {
            place: turn::back(frame),
            effect: Effect::Quiet,
        }),
    }
}
