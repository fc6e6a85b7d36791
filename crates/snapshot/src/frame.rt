// A frame of a range query, and the frames of a thread, as a state has them.
ghost use Rattle.std.specs.Prelude.{◌≡◌, ◌<◌, ◌≤◌, length};
ghost use Rattle.container.specs.Choice.{ite};
ghost use Rattle.buffer.specs.Writes.{Writes};
ghost use Rattle.definitions.specs.Run.{bytes_of};
ghost use Rattle.frames.specs.View.{held_stack, held_frame, held, frames_of};
ghost use Rattle.snapshot.specs.Layout.{padded, kept, frame_bytes, frames_bytes};
ghost use Rattle.snapshot.specs.Parts.{top_bytes};

use super::bytes::{put_link, put_noted, put_number, put_zeros};
use super::places::Field;
use buffer::Page;
use definitions::Place;
use frames::frame::Frame;
use frames::owner::Owner;
use frames::stack::Stack;

// The first 86 entries of a stack, the top first, where it is shown. The flag stands beside the stack here and in `put_length`: one that is not
// shown is written as zeros, as long as one that is, and an Option would be made of the flag at each call.
#[tactic(auto, using(buffer::proofs::Writes::writes, crate::proofs::FrameParts::stack_cases))]
pub fn put_stack(out: &mut Page, stack: &Stack, shown: bool)
    ensures { Writes out.old out.new (padded 86 (kept shown (held_stack stack.now))) }
{
    if shown {
        for i in 0..86 {
            out.put(stack.entry(i));
        }
    } else {
        put_zeros(out, 86);
    }
}

// How many numbers it has, where it is shown.
#[tactic(auto, using(buffer::proofs::Writes::writes), unfolding(container::specs::Choice::ite))]
fn put_length(out: &mut Page, stack: &Stack, shown: bool)
    ensures { Writes out.old out.new (bytes_of 1 (length (kept shown (held_stack stack.now)))) }
{
    if shown {
        put_number::<1>(out, stack.len() as u64);
    } else {
        put_number::<1>(out, 0);
    }
}

// The stations done, where they are shown.
#[tactic(auto, unfolding(container::specs::Choice::ite))]
fn done_of(frame: &Frame, shown: bool) -> u64
    ensures { result ≡ ite shown frame.now.done 0 }
{
    if shown { frame.done } else { 0 }
}

// A frame of a thread at place p, or of one that waits, with p 0.
pub fn put_frame(out: &mut Page, frame: &Frame, p: Place)
    ensures { Writes out.old out.new (frame_bytes p (held_frame frame.now)) }
{
    let has_stack = Field::Stack.is_at(p);
    let has_backup = Field::Backup.is_at(p);
    let has_done = Field::Done.is_at(p);
    out.put_all(&[frame.lower, frame.upper]);
    put_link(out, frame.store);
    put_noted(out, Field::Hand.is_at(p), Some(frame.base));
    put_noted(out, Field::Popped.is_at(p), Some(frame.popped));
    put_noted(out, Field::Key.is_at(p), Some(frame.key));
    out.put(u8::from(has_done & frame.begun));
    put_length(out, &frame.stack, has_stack);
    put_length(out, &frame.backup, has_backup);
    put_zeros(out, 3);
    put_number::<8>(out, done_of(frame, has_done));
    put_stack(out, &frame.stack, has_stack);
    put_stack(out, &frame.backup, has_backup);
}

// An owner's top frame, or the room for one that is not there. Its row is a number: the check has no rule for a frame that is read in a chunk of
// `as_chunks`, so that no proof closes.
fn put_top(out: &mut Page, frames: &[Frame], owner: Owner, p: Place)
    requires { 16 ≤ length frames.now }
    ensures { Writes out.old out.new (top_bytes p (frames_of (held frames.now) owner.thread owner.depth)) }
{
    match owner.top() {
        Some(row) => put_frame(out, &frames[row], p),
        None => put_zeros(out, 196),
    }
}

// The frames of a thread at place p, the top one first, and 0 after them.
pub fn put_frames(out: &mut Page, frames: &[Frame], owner: Owner, p: Place)
    requires { 16 ≤ length frames.now }
    ensures { Writes out.old out.new (frames_bytes 4 p (frames_of (held frames.now) owner.thread owner.depth)) }
{
    let mut left = owner;
    let mut q = p;
    for _ in 0..4u8 {
        put_top(out, frames, left, q);
        left = left.below();
        q = 0;
    }
}
