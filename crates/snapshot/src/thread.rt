// A thread as a state has it; its frames are written by themselves (frame).
ghost use Rattle.std.specs.Prelude.{◌≡◌, [], ◌++◌};
ghost use Rattle.buffer.specs.Writes.{Writes};
ghost use Rattle.steps.specs.Decision.{thread};
ghost use Rattle.snapshot.specs.Layout.{thread_head};
ghost use Rattle.snapshot.specs.Parts.{number_of, read_of, side_of, own_of, operation, flags, early, late};

use super::bytes::{put_noted, put_number, put_zeros};
use super::places::Field;
use buffer::Page;
use steps::Notes;

// The number of its action. A state has 0 there of an idle thread, as of each note below that is not there.
#[tactic(auto, using(crate::proofs::Heads::number_cases))]
fn number_of(th: Notes) -> u8
    ensures { result ≡ number_of (thread th []) }
{
    if th.place == 0 {
        0
    } else {
        u8::from(th.action)
    }
}

// Routes read, 8 for more.
#[tactic(auto, using(crate::proofs::Heads::read_cases))]
fn read_of(th: Notes) -> u8
    ensures { result ≡ read_of (thread th []) }
{
    if Field::Read.is_at(th.place) {
        th.read.min(8)
    } else {
        0
    }
}

// 1 for the left child, 2 for the right.
#[tactic(auto, using(crate::proofs::Heads::side_cases))]
fn side_of(th: Notes) -> u8
    ensures { result ≡ side_of (thread th []) }
{
    if !Field::Side.is_at(th.place) {
        0
    } else if th.left {
        1
    } else {
        2
    }
}

// Whether the main is its own.
#[tactic(auto, unfolding(container::specs::Choice::ite))]
fn own_of(th: Notes) -> u8
    ensures { result ≡ own_of (thread th []) }
{
    u8::from(Field::Main.is_at(th.place) && th.owner)
}

// Its operation.
fn put_operation(out: &mut Page, th: Notes)
    ensures { Writes out.old out.new (operation (thread th [])) }
{
    let number = number_of(th);
    out.put_all(&[th.place, number, th.station]);
    put_number::<2>(out, u64::from(th.extra));
}

// Its notes that are no nodes.
fn put_flags(out: &mut Page, th: Notes)
    ensures { Writes out.old out.new (flags (thread th [])) }
{
    let read = read_of(th);
    let side = side_of(th);
    let own = own_of(th);
    out.put_all(&[read, side, own]);
}

// Its nodes until a join has found its neighbour.
fn put_early(out: &mut Page, th: Notes)
    ensures { Writes out.old out.new (early (thread th [])) }
{
    let p = th.place;
    put_noted(out, Field::Route.is_at(p), Some(th.route));
    put_noted(out, Field::Base.is_at(p), Some(th.base));
    put_noted(out, Field::Parent.is_at(p), Some(th.parent));
    put_noted(out, Field::Found.is_at(p), Some(th.found));
}

// Its nodes after that.
fn put_late(out: &mut Page, th: Notes)
    ensures { Writes out.old out.new (late (thread th [])) }
{
    let p = th.place;
    let grandparent = th.grandparent;
    put_noted(out, Field::Neighbour.is_at(p), Some(th.neighbour));
    put_noted(out, Field::Main.is_at(p), Some(th.main));
    put_noted(out, Field::Grandparent.is_at(p), grandparent);
    put_noted(out, Field::Other.is_at(p), Some(th.other));
}

// Its first 24 bytes.
fn put_notes(out: &mut Page, th: Notes)
    ensures { Writes out.old out.new (operation (thread th []) ++ (flags (thread th []) ++ (early (thread th []) ++ late (thread th [])))) }
{
    put_operation(out, th);
    put_flags(out, th);
    put_early(out, th);
    put_late(out, th);
}

// Its first 32 bytes; n is how many frames it has.
pub fn put_head(out: &mut Page, th: Notes, n: u64)
    ensures { Writes out.old out.new (thread_head n (thread th [])) }
{
    put_notes(out, th);
    put_number::<1>(out, n);
    put_zeros(out, 7);
}
