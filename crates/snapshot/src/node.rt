// A node as a state has it, and the ranges of those that are reachable.
ghost use Rattle.std.specs.Prelude.{◌≡◌, [], ◌∷◌, length};
ghost use Rattle.container.specs.Choice.{ite};
ghost use Rattle.container.specs.Depths.{container};
ghost use Rattle.buffer.specs.Writes.{Writes};
ghost use Rattle.nodes.specs.Table.{table};
ghost use Rattle.nodes.specs.Stores.{stores};
ghost use Rattle.depths.specs.Rows.{rows, full};
ghost use Rattle.definitions.specs.Nodes.{is_route};
ghost use Rattle.definitions.specs.declared.Kind.TheVariants.{Main};
ghost use Rattle.definitions.specs.declared.Stage.TheVariants.{Completing};
ghost use Rattle.snapshot.specs.Layout.{each, agreed_bytes, own_bytes, depth_bytes, node_bytes, reached_below};
ghost use Rattle.snapshot.specs.Fields.{plain, based, field_bytes};

use super::bytes::{put_link, put_number, put_shared, put_zeros};
use buffer::Page;
use definitions::{Kind, Node, Nodes, Stage, Version};
use nodes::Results;

// Marks node x, whose range is given, and what is below it as reachable. It walks as tree's `set_below` does, but marks each node on the way:
// a walk of both would take what is done at a node as a parameter, and be no plainer.
#[tactic(auto, using(crate::proofs::Reached::reached_cases))]
pub fn reach(nodes: &Nodes, ranges: &mut Results, x: u8, range: u64, levels: u8)
    ensures { stores ranges.new ≡ reached_below levels (table nodes.now) x range (stores ranges.old) }
{
    nodes::fill(ranges, x, range);
    if levels == 0 {
        return;
    }
    let n = nodes::node_at(nodes, x);
    let kind = n.kind;
    if nodes::is_route(kind) {
        let low = container::lower(range, n.key);
        let high = container::upper(range, n.key);
        reach(nodes, ranges, n.left, low, levels - 1);
        reach(nodes, ranges, n.right, high, levels - 1);
    }
}

// What a main agreed on: the union node, the neighbour, the grandparent and the other child.
fn put_union(out: &mut Page, n: Node)
    ensures { Writes out.old out.new (agreed_bytes Completing (plain n)) }
{
    let grandparent = n.grandparent;
    out.put_all(&[1, n.union, 1, n.neighbour]);
    put_link(out, grandparent);
    out.put_all(&[1, n.other]);
}

// The same where its stage has it.
fn put_agreed(out: &mut Page, n: Node)
    ensures { Writes out.old out.new (agreed_bytes n.stage (plain n)) }
{
    let stage = n.stage;
    match stage {
        Stage::Preparing | Stage::Aborted => put_zeros(out, 8),
        Stage::Completing | Stage::Done => put_union(out, n),
    }
}

// A main's stage and what it agreed on.
fn put_main(out: &mut Page, n: Node)
    ensures { Writes out.old out.new (own_bytes Main (plain n)) }
{
    out.put_all(&[n.stage as u8, 0]);
    put_agreed(out, n);
    put_zeros(out, 6);
}

// A base's parent and container.
fn put_base(out: &mut Page, n: Node)
    ensures { Writes out.old out.new (based n) }
{
    let parent = n.parent;
    put_zeros(out, 6);
    put_link(out, parent);
    put_number::<8>(out, n.container);
}

// The fields of a node, 32 bytes.
pub fn put_fields(out: &mut Page, n: Node)
    ensures { Writes out.old out.new (field_bytes (plain n)) }
{
    let kind = n.kind;
    match kind {
        Kind::Normal => {
            put_base(out, n);
            put_zeros(out, 16);
        }
        Kind::Route => {
            let mark = n.mark;
            let valid = u8::from(!n.invalid);
            out.put_all(&[n.key, n.left, n.right, valid]);
            put_link(out, mark);
            put_zeros(out, 26);
        }
        Kind::Main => {
            put_base(out, n);
            put_main(out, n);
        }
        Kind::Neighbour => {
            put_base(out, n);
            put_zeros(out, 10);
            out.put_all(&[1, n.main]);
            put_zeros(out, 4);
        }
        Kind::Range => {
            put_base(out, n);
            put_zeros(out, 12);
            out.put_all(&[n.lower, n.upper, 1, n.store]);
        }
    }
}

// The depths of the stations of c in node x, two bytes each.
#[tactic(auto, using(buffer::proofs::Writes::writes, crate::proofs::NodeCases::next_past))]
pub fn put_depths(out: &mut Page, version: Version, depths: &[u16], x: u8, c: u64)
    ensures { Writes out.old out.new (each (depth_bytes (version ∷ []) (container c (rows depths.now x))) 64) }
{
    if version == 1 {
        put_zeros(out, 128);
        return;
    }
    if c == 0 {
        put_zeros(out, 128);
        return;
    }
    // no for: s goes from one station of c to the next, and between two there are zeros alone
    let mut s = 0u8;
    while s < 64 {
        let rest = container::upper(c, s);
        let low = container::lowest(rest);
        put_zeros(out, 2 * usize::from(low - s));
        s = low;
        if low < 64 {
            let d = depths::depth_at(depths, x, low);
            put_number::<2>(out, u64::from(d));
            s = low + 1;
        }
    }
}

// The container that a node holds: none of a route.
#[tactic(auto, using(crate::proofs::NodeCases::node_cases))]
fn holding(n: Node) -> u64
    ensures { result ≡ ite (is_route n.kind) 0 n.container }
{
    let kind = n.kind;
    if nodes::is_route(kind) {
        0
    } else {
        n.container
    }
}

// Node x, 176 bytes; `range` is its range where it is reachable.
#[tactic(auto, using(buffer::proofs::Writes::writes), unfolding(crate::specs::Layout::node_bytes, container::specs::Choice::ite))]
pub fn put_node(
    out: &mut Page,
    nodes: &Nodes,
    depths: &[u16],
    version: Version,
    range: Option<u64>,
    x: u8,
)
    ensures { Writes out.old out.new (node_bytes (version ∷ []) range (full (table nodes.now) (rows depths.now) x)) }
{
    let n = nodes::node_at(nodes, x);
    let held = holding(n);
    out.put(n.kind as u8);
    put_shared(out, range);
    put_fields(out, n);
    put_zeros(out, 6);
    put_depths(out, version, depths, x, held);
}
