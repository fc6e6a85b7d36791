// The bytes that a state is made of, written on a page.
ghost use Rattle.std.specs.Prelude.{◌≡◌, ◌≤◌};
ghost use Rattle.buffer.specs.Writes.{Writes};
ghost use Rattle.definitions.specs.Run.{bytes_of};
ghost use Rattle.snapshot.specs.Layout.{zeros, link_bytes, noted, shared_bytes};

use buffer::Page;

// A byte 0, n times. Where there is room for all of them none is asked for by itself.
#[tactic(auto, using(buffer::proofs::Writes::writes, crate::proofs::ByteCases::zeros_more))]
pub fn put_zeros(out: &mut Page, n: usize)
    ensures { Writes out.old out.new (zeros n) }
{
    let at = out.at;
    let len = out.bytes.len();
    if n <= len && at <= len - n {
        out.bytes[at..at + n].fill(0);
        out.at = at + n;
        return;
    }
    for _ in 0..n {
        out.put(0);
    }
}

// The last N bytes of a number.
#[tactic(auto, using(buffer::proofs::Writes::writes))]
pub fn put_number<const N: usize>(out: &mut Page, n: u64)
    requires { N ≤ 8 }
    ensures { Writes out.old out.new (bytes_of N n) }
{
    out.put_all(&n.to_be_bytes()[8 - N..]);
}

// A number or none. None is two zeros here and nine in `put_shared`, and what is there is written by another call: one generic function of the two
// would take both as parameters, and be no plainer.
pub fn put_link(out: &mut Page, l: Option<u8>)
    ensures { Writes out.old out.new (link_bytes l) }
{
    match l {
        None => out.put_all(&[0, 0]),
        Some(x) => out.put_all(&[1, x]),
    }
}

// The same of what is there only where c is true. The flag stands beside the link: callers have it as a bool of the place, and `then_some` at
// each of their eleven calls would be no plainer.
#[tactic(auto, using(buffer::proofs::Writes::writes), unfolding(crate::specs::Layout::noted, container::specs::Choice::ite))]
pub fn put_noted(out: &mut Page, c: bool, l: Option<u8>)
    ensures { Writes out.old out.new (noted c l) }
{
    if c {
        put_link(out, l);
    } else {
        put_link(out, None);
    }
}

// A word or none.
pub fn put_shared(out: &mut Page, s: Option<u64>)
    ensures { Writes out.old out.new (shared_bytes s) }
{
    match s {
        None => put_zeros(out, 9),
        Some(c) => {
            out.put(1);
            put_number::<8>(out, c);
        }
    }
}
