// Without a step of their own: next, add, back and found first; and what follows a swap that succeeds. Each gives the next place.
#![tactic(auto, using(std::proofs::lemmas::Bool::Decides::nat_tests, crate::proofs::Turns::next_cases), unfolding(container::specs::Choice::ite, definitions::specs::Frames::reaches, definitions::specs::Frames::adding, crate::specs::Turns::add_turn, crate::specs::Turns::found_turn, crate::specs::Turns::extend_turn, crate::specs::Turns::begin_turn))]

ghost use Rattle.std.specs.Prelude.{◌≡◌, ◌∷◌};
ghost use Rattle.definitions.specs.Frames.{is_of, reaches, next_from, back_in};
ghost use Rattle.frames.specs.View.{held_frame};
ghost use Rattle.frames.specs.Turns.{Leads, Goes, add_turn, found_turn, extend_turn, begin_turn};

use super::frame::Frame;
use definitions::{Kind, Node, Place};

// Next: the base is popped off the stack.
pub fn next(frame: &mut Frame) -> Place
    ensures { Leads (held_frame frame.old) (held_frame frame.new) result (λ e f fs th. next_from f.stack e f fs th) }
{
    let top = frame.stack.pop();
    match top {
        None => 81,
        Some(base) => {
            frame.popped = base;
            if frame.stack.is_empty() { 81 } else { 70 }
        }
    }
}

// Has the container c a station at or over h?
fn reaching(c: u64, h: u8) -> bool
    ensures { result ≡ reaches c h }
{
    container::common(c, container::upper(u64::MAX, h)) != 0
}

// Add: c is the container of the base in hand.
pub fn add(frame: &mut Frame, c: u64) -> Place
    ensures { Leads (held_frame frame.old) (held_frame frame.new) result (add_turn c) }
{
    let last = reaching(c, frame.upper);
    frame.keep(c);
    if last { 81 } else { next(frame) }
}

// Back, with this frame on top.
pub fn back(frame: &mut Frame) -> Place
    ensures { Leads (held_frame frame.old) (held_frame frame.new) result (λ e f fs th. back_in (f ∷ fs) e th) }
{
    if !frame.begun {
        return 60;
    }
    if frame.backup.is_empty() {
        return 81;
    }
    frame.stack = frame.backup;
    next(frame)
}

// Is it a range base of the store k?
pub fn is_of(k: u8, base: Node) -> bool
    ensures { result ≡ is_of k base }
{
    base.kind == Kind::Range && base.store == k
}

// Found first, with the base in hand.
pub fn found_first(frame: &mut Frame, base: Node) -> Place
    ensures { Goes (held_frame frame.old) (held_frame frame.new) result (found_turn base) }
{
    match frame.store {
        None => 62,
        Some(k) => {
            if is_of(k, base) {
                add(frame, base.container)
            } else {
                82
            }
        }
    }
}

// 77 to 80, where the swap succeeds: x is the new range base, c its container.
#[tactic(auto, using(crate::proofs::Turns::extends))]
pub fn extend(frame: &mut Frame, x: u8, c: u64) -> Place
    ensures { Leads (held_frame frame.old) (held_frame frame.new) result (extend_turn x c) }
{
    frame.swap_base(x);
    add(frame, c)
}

// 64 to 67, likewise, with the new store k.
pub fn begin(frame: &mut Frame, x: u8, k: u8, c: u64) -> Place
    ensures { Leads (held_frame frame.old) (held_frame frame.new) result (begin_turn x k c) }
{
    frame.store = Some(k);
    extend(frame, x, c)
}
