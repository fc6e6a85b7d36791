// The listing: a line for each node, by two walks that call each other, then the set. From version 2 on a station is shown with its depth.
#![tactic(auto, using(buffer::proofs::Writes::writes))]

ghost use Rattle.std.specs.Prelude.{◌≡◌, [], ◌∷◌, ◌++◌, ◌-◌, ◌<◌};
ghost use Rattle.container.specs.Container.{all};
ghost use Rattle.nodes.specs.Table.{table};
ghost use Rattle.depths.specs.Rows.{rows, full};
ghost use Rattle.buffer.specs.Page.{page, put_all};
ghost use Rattle.buffer.specs.Writes.{Writes};
ghost use Rattle.definitions.specs.Tree.{held_below};
ghost use Rattle.definitions.specs.Listing.{space, decimal, kind_word, stations_text, depth, route_line, base_line, subtree_text, set_line};
ghost use Rattle.listing.specs.Texts.{headed, shown, station_part, plain_route};

use buffer::Page;
use definitions::{Kind, Node, Nodes, Version};

// The word for a kind. By a match; with no Display, as buffer's numbers: the reason stands there.
pub fn put_kind(out: &mut Page, kind: Kind)
    ensures { Writes out.old out.new (kind_word kind) }
{
    match kind {
        Kind::Normal => out.put_all(b"normal"),
        Kind::Route => out.put_all(b"route"),
        Kind::Main => out.put_all(b"main"),
        Kind::Neighbour => out.put_all(b"neighbour"),
        Kind::Range => out.put_all(b"range"),
    }
}

// A space and a number.
pub fn put_number(out: &mut Page, n: u8)
    ensures { Writes out.old out.new (space ∷ decimal n) }
{
    out.put(b' ');
    out.put_decimal(u16::from(n));
}

// ---- lines

// How each line begins: depth and kind.
fn put_head(out: &mut Page, kind: Kind, levels: u8)
    ensures { Writes out.old out.new (decimal (depth levels) ++ space ∷ kind_word kind) }
{
    out.put_decimal(u16::from(63u8.saturating_sub(levels)));
    out.put(b' ');
    put_kind(out, kind);
}

// The line of a route.
#[tactic(auto, using(buffer::proofs::Writes::writes, crate::proofs::Cases::lines))]
pub fn put_route(out: &mut Page, n: Node, levels: u8)
    ensures { Writes out.old out.new (route_line levels (plain_route n)) }
{
    put_head(out, Kind::Route, levels);
    put_number(out, n.key);
    out.put(b'\n');
}

// What is listed: the nodes, the depths of their stations where depths are lent, and the version of the file, which says whether they are
// shown.
#[derive(Clone, Copy)]
pub struct Tree<'a> {
    pub nodes: &'a Nodes,
    pub depths: &'a [u16],
    pub version: Version,
}

impl<'a> Tree<'a> {
    ghost use Rattle.listing.specs.Tree.{nodes_of};

    // ---- stations, each at the depth that it has where it leads to from node x

    // Station s, if c has it.
    #[tactic(auto, using(buffer::proofs::Writes::writes), unfolding(crate::specs::Texts::station_part, container::specs::Choice::ite))]
    pub fn put_station(&self, x: u8, levels: u8, c: u64, s: u8, out: &mut Page)
        ensures { Writes out.old out.new (station_part (headed self.now.version) (shown c levels (nodes_of self.now) x) s) }
    {
        if container::contains(c, s) {
            put_number(out, s);
            if self.version == 1 {
                return;
            }
            out.put(b'=');
            out.put_decimal(tree::depth_under(self.nodes, self.depths, x, levels, s));
        }
    }

    // The stations of c, or a dash.
    #[tactic(auto, using(buffer::proofs::Writes::writes, crate::proofs::Cases::stations))]
    pub fn put_stations(&self, x: u8, levels: u8, c: u64, out: &mut Page)
        ensures { Writes out.old out.new (stations_text (headed self.now.version) (shown c levels (nodes_of self.now) x)) }
    {
        if c == 0 {
            out.put_all(b" -");
            return;
        }
        for s in 0..64 {
            self.put_station(x, levels, c, s, out);
        }
    }

    // The line of base x: its stations have their depths there, no step down.
    #[tactic(auto, using(buffer::proofs::Writes::writes, crate::proofs::Cases::lines))]
    pub fn put_base(&self, x: u8, levels: u8, out: &mut Page)
        ensures { Writes out.old out.new (base_line (headed self.now.version) levels (nodes_of self.now x)) }
    {
        let n = nodes::node_at(self.nodes, x);
        put_head(out, n.kind, levels);
        self.put_stations(x, 0, n.container, out);
        out.put(b'\n');
    }

    // The line of the set c: its stations have the depths of the bases that they lead to.
    #[tactic(auto, using(buffer::proofs::Writes::writes), unfolding(definitions::specs::Listing::set_line))]
    pub fn put_set(&self, root: u8, c: u64, out: &mut Page)
        ensures { Writes out.old out.new (set_line (headed self.now.version) (shown c 63 (nodes_of self.now) root)) }
    {
        out.put_all(b"set");
        self.put_stations(root, 63, c, out);
        out.put(b'\n');
    }

    // ---- the walks

    // The lines of node x and what is below it.
    #[cycle(route_walk_subtree)]
    #[tactic(auto, using(buffer::proofs::Writes::writes, crate::proofs::Cases::walk))]
    pub fn subtree(&self, x: u8, levels: u8, out: &mut Page)
        ensures { Writes out.old out.new (subtree_text (headed self.now.version) levels (nodes_of self.now) x) }
    {
        let n = nodes::node_at(self.nodes, x);
        if nodes::is_route(n.kind) {
            if levels != 0 {
                self.route_walk(n, levels, out);
            }
        } else {
            self.put_base(x, levels, out);
        }
    }

    // The lines of route n and of both its subtrees.
    #[cycle(route_walk_subtree)]
    pub fn route_walk(&self, n: Node, levels: u8, out: &mut Page)
        requires { 0 < levels }
        ensures { Writes out.old out.new (route_line levels (plain_route n) ++ (subtree_text (headed self.now.version) (levels - 1) (nodes_of self.now) n.left ++ subtree_text (headed self.now.version) (levels - 1) (nodes_of self.now) n.right)) }
    {
        put_route(out, n, levels);
        self.subtree(n.left, levels - 1, out);
        self.subtree(n.right, levels - 1, out);
    }
}

// The whole text below the root.
#[tactic(auto, using(buffer::proofs::Writes::writes, crate::proofs::Texts::set_held))]
pub fn write_tree(
    nodes: &Nodes,
    depths: &[u16],
    version: Version,
    root: u8,
    out: &mut [u8],
) -> usize
    ensures { page out.new result ≡ put_all (page out.old 0) (subtree_text (headed version) 63 (full (table nodes.now) (rows depths.now)) root ++ set_line (headed version) (held_below 63 (full (table nodes.now) (rows depths.now)) root all)) }
{
    let tree = Tree {
        nodes,
        depths,
        version,
    };
    let mut text = Page { bytes: out, at: 0 };
    tree.subtree(root, 63, &mut text);
    let c = tree::set_below(nodes, root, u64::MAX, 63);
    tree.put_set(root, c, &mut text);
    text.at
}
