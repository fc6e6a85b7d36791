// The tree's set and the stored count, by a walk down with levels left; and the depth of a station in it.
#![tactic(auto)]

ghost use Rattle.std.specs.Prelude.{◌≡◌};
ghost use Rattle.nodes.specs.Table.{table};
ghost use Rattle.depths.specs.Rows.{rows, full};
ghost use Rattle.tree.specs.Below.{set_below, count_below, depth_under};

use definitions::Nodes;

// The stations below node x, whose range is given. Snapshot's `reach` walks alike, and says why it stands apart.
#[tactic(auto, using(crate::proofs::Cases::set_cases))]
pub fn set_below(nodes: &Nodes, x: u8, range: u64, levels: u8) -> u64
    ensures { result ≡ set_below levels (table nodes.now) x range }
{
    let n = nodes::node_at(nodes, x);
    if levels == 0 || !nodes::is_route(n.kind) {
        return container::common(n.container, range);
    }
    let low = container::lower(range, n.key);
    let high = container::upper(range, n.key);
    let a = set_below(nodes, n.left, low, levels - 1);
    let b = set_below(nodes, n.right, high, levels - 1);
    container::united(a, b)
}

// How many stations are below node x, whose range is given: in each base's container, inside the base's range. It is counted at the bases, and not
// read off the set, as 01 and 02 (c) define it; so it walks as `set_below` does.
#[tactic(auto, using(crate::proofs::Cases::stored_cases))]
pub fn stored_below(nodes: &Nodes, x: u8, range: u64, levels: u8) -> u64
    ensures { result ≡ count_below levels (table nodes.now) x range }
{
    let n = nodes::node_at(nodes, x);
    let inside = container::common(n.container, range);
    if levels == 0 || !nodes::is_route(n.kind) {
        return u64::from(container::count(inside));
    }
    let low = container::lower(range, n.key);
    let high = container::upper(range, n.key);
    let a = stored_below(nodes, n.left, low, levels - 1);
    let b = stored_below(nodes, n.right, high, levels - 1);
    a + b
}

// The depth of station s where it leads to from node x, with at most so many steps down.
pub fn depth_under(nodes: &Nodes, depths: &[u16], x: u8, levels: u8, s: u8) -> u16
    ensures { result ≡ depth_under levels (full (table nodes.now) (rows depths.now)) x s }
{
    let mut y = x;
    for _ in 0..levels {
        let n = nodes::node_at(nodes, y);
        if !nodes::is_route(n.kind) {
            break;
        }
        y = nodes::child_for(s, n);
    }
    depths::depth_at(depths, y, s)
}
