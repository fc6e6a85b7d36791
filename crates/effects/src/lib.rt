// What a step writes, carried out in place: `apply` on the nodes, `deepen` on the depths of the nodes' containers. What a range query
// writes is apart, in functions of its own, so that the other steps do not pay for it.
#![tactic(auto)]

ghost use Rattle.std.specs.Prelude.{◌≡◌, cond, ◌+◌, length};
ghost use Rattle.container.specs.Choice.{upd};
ghost use Rattle.nodes.specs.Table.{table};
ghost use Rattle.depths.specs.Rows.{rows, Holds};
ghost use Rattle.definitions.specs.Nodes.{new_route};
ghost use Rattle.effects.specs.Writes.{effect_of};
ghost use Rattle.effects.specs.Used.{used_after, base_shape, range_shape, set_of, fork_shapes, Hung, depths_of, within, deepened, Applies, Asks};

use definitions::{Content, Kind, Node, Nodes, Spot, Stage};

// What a step at a place below 60 writes: an effect that makes no range base and sets no result. It stands beside definitions' `Effect`
// because that holds a result, a word, and is wider in every decision: an `Effect` in place of this was measured to cost 27
// instructions a record, of 99 (docs/DECISIONS.md), and a long run is to take no more than at the start (docs/DESIGN-PASS.md, "Speed").
#[derive(Clone, Copy)]
pub enum Write {
    Quiet,
    Mark {
        route: u8,
        mark: Option<u8>,
    },
    Settle {
        main: u8,
        stage: Stage,
    },
    Invalid {
        route: u8,
    },
    Swing {
        spot: Spot,
        to: u8,
    },
    Base {
        spot: Spot,
        at: u8,
        kind: Kind,
        parent: Option<u8>,
        content: Content,
        main: u8,
    },
    Fork {
        spot: Spot,
        at: u8,
        left: u8,
        right: u8,
        key: u8,
        base: u8,
    },
    Commit {
        main: u8,
        at: u8,
        parent: Option<u8>,
        neighbour: u8,
        grandparent: Option<u8>,
        other: u8,
    },
}

// The new nodes, but their depths: a base, a route, a range base. Each has fields of its own, and is `EMPTY` in the others, so that one
// function for all three would be `nodes::put_node` with the fields at each call.
pub fn put_base(nodes: &mut Nodes, at: u8, kind: Kind, parent: Option<u8>, container: u64, main: u8)
    ensures { table nodes.new ≡ upd (table nodes.old) at (base_shape kind parent container main) }
{
    let n = Node {
        kind,
        parent,
        container,
        main,
        ..nodes::EMPTY
    };
    nodes::put_node(nodes, at, n);
}

pub fn put_route(nodes: &mut Nodes, at: u8, key: u8, left: u8, right: u8)
    ensures { table nodes.new ≡ upd (table nodes.old) at (new_route key left right) }
{
    let n = Node {
        kind: Kind::Route,
        key,
        left,
        right,
        ..nodes::EMPTY
    };
    nodes::put_node(nodes, at, n);
}

// Its ends and its store are no struct, here and at `ask`: definitions' `Node` says why.
pub fn put_range(
    nodes: &mut Nodes,
    at: u8,
    parent: Option<u8>,
    container: u64,
    lower: u8,
    upper: u8,
    store: u8,
)
    ensures { table nodes.new ≡ upd (table nodes.old) at (range_shape parent container lower upper store) }
{
    let n = Node {
        kind: Kind::Range,
        parent,
        container,
        lower,
        upper,
        store,
        ..nodes::EMPTY
    };
    nodes::put_node(nodes, at, n);
}

// Node x is put at a spot; gives the root.
#[tactic(auto, using(crate::proofs::Laws::hang_cases))]
pub fn hang_at(nodes: &mut Nodes, root: u8, spot: Spot, x: u8) -> u8
    ensures { Hung (table nodes.old) root spot x (table nodes.new) result }
{
    match spot {
        Spot::Root => x,
        Spot::Under(r, left) => {
            nodes::set_kid(nodes, r, left, x);
            root
        }
    }
}

// The set of a new base's container.
#[tactic(auto, using(crate::proofs::Laws::set_cases))]
pub fn set_of(nodes: &Nodes, content: Content) -> u64
    ensures { result ≡ set_of content (table nodes.now) }
{
    match content {
        Content::Of(y) => nodes::node_at(nodes, y).container,
        Content::With(y, s, _) => container::with(nodes::node_at(nodes, y).container, s),
        Content::Without(y, s) => container::without(nodes::node_at(nodes, y).container, s),
    }
}

// A route and its two bases, with the halves of the set c.
#[tactic(auto, using(crate::proofs::Laws::fork_put))]
pub fn put_fork(nodes: &mut Nodes, at: u8, left: u8, right: u8, key: u8, c: u64)
    ensures { table nodes.new ≡ fork_shapes at left right key c (table nodes.old) }
{
    let low = container::lower_half(c);
    let high = container::upper_half(c);
    put_route(nodes, at, key, left, right);
    put_base(nodes, left, Kind::Normal, Some(at), low, 0);
    put_base(nodes, right, Kind::Normal, Some(at), high, 0);
}

// How many node numbers are used after it.
#[tactic(auto, using(crate::proofs::Laws::used_cases))]
pub fn used_after(used: u16, w: Write) -> u16
    ensures { result ≡ used_after used (effect_of w) }
{
    match w {
        Write::Base { at, .. } | Write::Commit { at, .. } => at as u16 + 1,
        Write::Fork { at, .. } => at as u16 + 3,
        _ => used,
    }
}

// It is carried out on the nodes; gives the root. The stores stay as they are.
#[tactic(auto, using(crate::proofs::Laws::apply_cases))]
pub fn apply(nodes: &mut Nodes, root: u8, used: u16, w: Write) -> u8
    ensures { Applies (table nodes.old) root used (effect_of w) (table nodes.new) result }
{
    match w {
        Write::Quiet => root,
        Write::Mark { route, mark } => {
            nodes::set_mark(nodes, route, mark);
            root
        }
        Write::Settle { main, stage } => {
            nodes::set_stage(nodes, main, stage);
            root
        }
        Write::Invalid { route } => {
            nodes::set_valid(nodes, route, false);
            root
        }
        Write::Swing { spot, to } => hang_at(nodes, root, spot, to),
        Write::Base {
            spot,
            at,
            kind,
            parent,
            content,
            main,
        } => {
            let c = set_of(nodes, content);
            put_base(nodes, at, kind, parent, c, main);
            hang_at(nodes, root, spot, at)
        }
        Write::Fork {
            spot,
            at,
            left,
            right,
            key,
            base,
        } => {
            let n = nodes::node_at(nodes, base);
            put_fork(nodes, at, left, right, key, n.container);
            hang_at(nodes, root, spot, at)
        }
        Write::Commit {
            main,
            at,
            parent,
            neighbour,
            grandparent,
            other,
        } => {
            let m = nodes::node_at(nodes, main);
            let n = nodes::node_at(nodes, neighbour);
            let c = container::united(m.container, n.container);
            put_base(nodes, at, Kind::Neighbour, parent, c, main);
            nodes::commit(nodes, main, at, neighbour, grandparent, other);
            root
        }
    }
}

// The depths of a new base, where they are lent.
#[tactic(auto, using(crate::proofs::Laws::lay_cases))]
fn lay(depths: &mut [u16], at: u8, content: Content)
    ensures { Holds (length depths.old) (at + 1) → rows depths.new ≡ upd (rows depths.old) at (depths_of content (rows depths.old)) }
{
    match content {
        Content::Of(y) | Content::Without(y, _) => depths::copy(depths, y, at),
        Content::With(y, s, d) => {
            depths::copy(depths, y, at);
            depths::set_depth(depths, at, s, d)
        }
    }
}

// It is carried out on the depths, where those of the new nodes are lent; the nodes are those before it.
#[tactic(auto, using(crate::proofs::Laws::deepen_cases))]
pub fn deepen(nodes: &Nodes, depths: &mut [u16], w: Write)
    ensures { within (effect_of w) (length depths.old) → rows depths.new ≡ deepened (effect_of w) (table nodes.now) (rows depths.old) }
{
    match w {
        Write::Base { at, content, .. } => lay(depths, at, content),
        Write::Fork {
            at,
            left,
            right,
            base,
            ..
        } => {
            depths::copy(depths, base, at);
            depths::copy(depths, base, left);
            depths::copy(depths, base, right)
        }
        Write::Commit {
            main,
            at,
            neighbour,
            ..
        } => {
            let m = nodes::node_at(nodes, main);
            depths::select(depths, m.container, main, neighbour, at)
        }
        _ => {}
    }
}

// ---- what a range query writes; a result is set by crate nodes

// A range base with the container of `base` is put at a spot; gives the root. Whether its store is a new one is for `shown_after`. The
// arguments are the fields of one variant of `Effect`, which cannot be passed by itself.
pub fn ask(
    nodes: &mut Nodes,
    root: u8,
    spot: Spot,
    at: u8,
    parent: Option<u8>,
    base: u8,
    lower: u8,
    upper: u8,
    store: u8,
) -> u8
    ensures { Asks (table nodes.old) root spot at parent base lower upper store (table nodes.new) result }
{
    let c = nodes::node_at(nodes, base).container;
    put_range(nodes, at, parent, c, lower, upper, store);
    hang_at(nodes, root, spot, at)
}

// How many stores are shown after it. `fresh` says whether its store is a new one. No Option of a store: a range base has one either way,
// and an effect names it beside the flag.
#[tactic(auto, using(crate::proofs::Laws::shown_fresh))]
pub fn shown_after(shown: u16, store: u8, fresh: bool) -> u16
    ensures { result ≡ cond fresh (store + 1) shown }
{
    if fresh { store as u16 + 1 } else { shown }
}

// Its depths, where they are lent, are those of the base that it is put for: `depths::copy` in a range base's words, the new node first, as in `ask`.
pub fn deepen_range(depths: &mut [u16], at: u8, old: u8)
    ensures { Holds (length depths.old) (at + 1) → rows depths.new ≡ upd (rows depths.old) at (rows depths.old old) }
{
    depths::copy(depths, old, at);
}
