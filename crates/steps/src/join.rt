// 19 to 38: a join, until its stage is a node number or it stands down.
#![tactic(auto, using(std::proofs::lemmas::Bool::Decides::nat_tests), unfolding(container::specs::Choice::ite, definitions::specs::Steps::beside, definitions::specs::Steps::step, definitions::specs::Nodes::replaceable, crate::specs::Decision::rising))]

ghost use Rattle.std.specs.Prelude.{◌≡◌, [], ◌<◌, ◌≤◌};
ghost use Rattle.nodes.specs.Table.{table};
ghost use Rattle.nodes.specs.View.{seen};
ghost use Rattle.definitions.specs.Places.{place_of};
ghost use Rattle.definitions.specs.Steps.{beside, hooked, marking, grand_marking, union_parent, closed, unmark, step};
ghost use Rattle.effects.specs.Writes.{effect_of};
ghost use Rattle.steps.specs.Decision.{thread, Decides, rising};

use super::{Decision, Note, Notes, on_way};
use definitions::{Answer, Content, Kind, Nodes, Place, Spot, Stage};
use effects::Write;
use nodes::View;

// 22, 23: node x is read on the way to the base beside.
pub fn step_beside(nodes: &Nodes, th: Notes, x: u8) -> Decision
    ensures { Decides th result (λ h. beside (table nodes.now) h x) }
{
    on_way(nodes, x, 23, |_| Decision::note(24, Note::Found(x)))
}

// 25: the base under the parent becomes a main.
pub fn hook(nodes: &Nodes, used: u16, th: Notes) -> Decision
    ensures { Decides th result (hooked (table nodes.now) used) }
{
    let p = nodes::node_at(nodes, th.parent);
    if nodes::kid_of(th.left, p) != th.base {
        return Decision::say(Answer::Lost);
    }
    let Ok(at) = u8::try_from(used) else {
        return Decision::NodesOut;
    };
    let b = nodes::node_at(nodes, th.base);
    Decision::Goes {
        effect: Write::Base {
            spot: Spot::Under(th.parent, th.left),
            at,
            kind: Kind::Main,
            parent: b.parent,
            content: Content::Of(th.base),
            main: 0,
        },
        place: 26,
        note: Note::Main {
            main: at,
            owner: true,
        },
    }
}

// 19 to 25; 19 with the stop on alone.
pub fn approach(view: &View, th: Notes) -> Decision
    requires { (19 ≤ th.place) × (th.place < 26) }
    ensures { Decides th result (step (place_of th.place) (seen view.now)) }
{
    match th.place {
        19 => {
            if view.stop.count == 0 {
                Decision::go(20)
            } else {
                Decision::say(Answer::Stopped)
            }
        }
        20 => {
            let p = nodes::node_at(view.nodes, th.parent);
            if p.left == th.base {
                Decision::note(22, Note::Side(true))
            } else {
                Decision::go(21)
            }
        }
        21 => {
            let p = nodes::node_at(view.nodes, th.parent);
            if p.right == th.base {
                Decision::note(22, Note::Side(false))
            } else {
                Decision::say(Answer::Lost)
            }
        }
        22 => {
            let p = nodes::node_at(view.nodes, th.parent);
            step_beside(view.nodes, th, nodes::kid_of(!th.left, p))
        }
        23 => {
            let n = nodes::node_at(view.nodes, th.route);
            step_beside(view.nodes, th, nodes::kid_of(th.left, n))
        }
        24 => {
            let c = nodes::check(view.nodes, view.results, th.found);
            if nodes::is_replaceable(c) {
                Decision::go(25)
            } else {
                Decision::say(Answer::NeighbourBlocked)
            }
        }
        _ => hook(view.nodes, view.used, th),
    }
}

// 30, 33: the join mark of route g goes from none to the thread's main, then to place `succeeded`; failure leads to place `failed`.
pub fn mark(nodes: &Nodes, g: u8, succeeded: Place, failed: Place, th: Notes) -> Decision
    ensures { Decides th result (marking (table nodes.now) g succeeded failed) }
{
    match nodes::node_at(nodes, g).mark {
        None => Decision::write(
            succeeded,
            Write::Mark {
                route: g,
                mark: Some(th.main),
            },
        ),
        Some(_) => Decision::go(failed),
    }
}

// 31, 32: node x is read on the way to the parent; x is under the grandparent, where there is one. The parent leads to place `found`.
pub fn rise(nodes: &Nodes, x: u8, grandparent: Option<u8>, found: Place, th: Notes) -> Decision
    ensures { Decides th result (rising (table nodes.now) x grandparent found) }
{
    if x == th.parent {
        return Decision::note(found, Note::Grandparent(grandparent));
    }
    on_way(nodes, x, 32, |_| Decision::go(37))
}

// 33: the grandparent's mark.
pub fn mark_grandparent(nodes: &Nodes, th: Notes) -> Decision
    ensures { Decides th result (grand_marking th.grandparent (table nodes.now)) }
{
    match th.grandparent {
        None => Decision::go(37),
        Some(g) => mark(nodes, g, 34, 37, th),
    }
}

// The parent of the union node.
pub fn union_parent(nodes: &Nodes, th: Notes) -> Option<u8>
    ensures { result ≡ union_parent (table nodes.now) (thread th []) }
{
    if th.other == th.neighbour {
        th.grandparent
    } else {
        nodes::node_at(nodes, th.neighbour).parent
    }
}

// 35: the stage goes from preparing to a new neighbour.
pub fn close(nodes: &Nodes, used: u16, th: Notes) -> Decision
    ensures { Decides th result (closed (table nodes.now) used) }
{
    let m = nodes::node_at(nodes, th.main);
    if !nodes::is_preparing(m.stage) {
        return match th.grandparent {
            None => Decision::go(37),
            Some(_) => Decision::go(36),
        };
    }
    let Ok(at) = u8::try_from(used) else {
        return Decision::NodesOut;
    };
    Decision::write(
        40,
        Write::Commit {
            main: th.main,
            at,
            parent: union_parent(nodes, th),
            neighbour: th.neighbour,
            grandparent: th.grandparent,
            other: th.other,
        },
    )
}

// 36: the grandparent's mark is cleared. Not one function with `complete::invalidate`, which says why.
pub fn unmarked(l: Option<u8>) -> Write
    ensures { effect_of result ≡ unmark l }
{
    match l {
        None => Write::Quiet,
        Some(route) => Write::Mark { route, mark: None },
    }
}

// 30 to 38.
pub fn prepare(view: &View, th: Notes) -> Decision
    requires { (30 ≤ th.place) × (th.place < 40) }
    ensures { Decides th result (step (place_of th.place) (seen view.now)) }
{
    match th.place {
        30 => mark(view.nodes, th.parent, 31, 38, th),
        31 => rise(view.nodes, view.root, None, 34, th),
        32 => {
            let p = nodes::node_at(view.nodes, th.parent);
            let n = nodes::node_at(view.nodes, th.route);
            rise(
                view.nodes,
                nodes::child_for(p.key, n),
                Some(th.route),
                33,
                th,
            )
        }
        33 => mark_grandparent(view.nodes, th),
        34 => {
            let p = nodes::node_at(view.nodes, th.parent);
            Decision::note(35, Note::Other(nodes::kid_of(!th.left, p)))
        }
        35 => close(view.nodes, view.used, th),
        36 => Decision::write(37, unmarked(th.grandparent)),
        37 => Decision::write(
            38,
            Write::Mark {
                route: th.parent,
                mark: None,
            },
        ),
        38 => Decision::Answers {
            effect: Write::Settle {
                main: th.main,
                stage: Stage::Aborted,
            },
            answer: Answer::StoodDown,
        },
        _ => Decision::go(th.place),
    }
}
