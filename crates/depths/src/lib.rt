// The depths of the stations of each node's container, changed in place: 64 numbers a node, for as many nodes as are lent.
#![tactic(auto)]

ghost use Rattle.std.specs.Prelude.{◌≡◌, ◌+◌, ◌*◌, length};
ghost use Rattle.container.specs.Choice.{upd};
ghost use Rattle.depths.specs.Rows.{rows, Holds, changed, selected};

// Where the depth of station s in node x lies. By arithmetic, in this one place: `as_chunks` leaves out what is past the last whole row,
// which `rows` does not, and of `as_chunks_mut` no clause says what the numbers are after it.
fn index(x: u8, s: u8) -> usize
    ensures { result ≡ x * 64 + s }
{
    x as usize * 64 + s as usize
}

// The depth of station s in node x; 0 where its depths are not lent. In version 1 none are: its records have depth 0, and its rows and texts
// show none, so that each caller would turn an Option into this 0.
#[tactic(auto, using(crate::proofs::Fill::cases))]
pub fn depth_at(depths: &[u16], x: u8, s: u8) -> u16
    ensures { result ≡ rows depths.now x s }
{
    if s < 64 {
        depths.get(index(x, s)).copied().unwrap_or(0)
    } else {
        0
    }
}

// Node `to` gets the depths of node `from`, where its own are lent; a node whose depths are not lent has none.
pub fn copy(depths: &mut [u16], from: u8, to: u8)
    ensures { Holds (length depths.old) (to + 1) → rows depths.new ≡ upd (rows depths.old) to (rows depths.old from) }
{
    let row = index(from, 0);
    let at = index(to, 0);
    if row.max(at) + 64 <= depths.len() {
        depths.copy_within(row..row + 64, at);
    } else if at + 64 <= depths.len() {
        depths[at..at + 64].fill(0);
    }
}

// The depth of station s in node x becomes d, where its depths are lent.
pub fn set_depth(depths: &mut [u16], x: u8, s: u8, d: u16)
    ensures { Holds (length depths.old) (x + 1) → rows depths.new ≡ upd (rows depths.old) x (changed (rows depths.old x) s d) }
{
    if s < 64 && index(x, s) < depths.len() {
        depths[index(x, s)] = d;
    }
}

// Node `to` gets the depths of node a for the stations of `set`, and of node b for the others, where its own are lent.
pub fn select(depths: &mut [u16], set: u64, a: u8, b: u8, to: u8)
    ensures { Holds (length depths.old) (to + 1) → rows depths.new ≡ upd (rows depths.old) to (selected set (rows depths.old a) (rows depths.old b)) }
{
    if index(to, 64) <= depths.len() {
        for s in 0..64 {
            let from = if container::contains(set, s) { a } else { b };
            depths[index(to, s)] = depth_at(depths, from, s);
        }
    }
}
