// The four-step swap and its three kinds: 10 to 13, 26 to 29, 41 to 44.
#![tactic(auto, using(std::proofs::lemmas::Bool::Decides::nat_tests), unfolding(container::specs::Choice::ite, definitions::specs::Steps::probe, definitions::specs::Steps::replaced, definitions::specs::Steps::step))]

ghost use Rattle.std.specs.Prelude.{◌≡◌};
ghost use Rattle.nodes.specs.Table.{table};
ghost use Rattle.nodes.specs.View.{seen};
ghost use Rattle.definitions.specs.Answers.{said};
ghost use Rattle.definitions.specs.Places.{swap, own, found, united};
ghost use Rattle.definitions.specs.Steps.{newer, probe, replaced, step};
ghost use Rattle.effects.specs.Writes.{effect_of};
ghost use Rattle.steps.specs.Decision.{Decides};

use super::{Decision, Note, Notes, search};
use definitions::{Action, Answer, Content, Kind, Node, Nodes, Probe, Quarter, Spot};
use effects::Write;
use nodes::View;

// One of the four steps for the base x: where it hangs, the next step, or failure. All five swaps ask it, a query's through crate queries'
// `look`, which has its frame's base for x. A match on the step: each asks another child or leads elsewhere, and a function handed in for
// each would be no plainer.
pub fn look(nodes: &Nodes, root: u8, parent: Option<u8>, x: u8, q: Quarter) -> Probe
    ensures { result ≡ probe q parent (table nodes.now) root x }
{
    let Some(p) = parent else {
        return match q {
            Quarter::ReadLeft if root == x => Probe::Hit(Spot::Root),
            _ => Probe::Miss,
        };
    };
    let n = nodes::node_at(nodes, p);
    match q {
        Quarter::ReadLeft if n.left == x => Probe::Next(Quarter::SwapLeft),
        Quarter::ReadLeft => Probe::Next(Quarter::ReadRight),
        Quarter::SwapLeft if n.left == x => Probe::Hit(Spot::Under(p, true)),
        Quarter::ReadRight if n.right == x => Probe::Next(Quarter::SwapRight),
        Quarter::SwapRight if n.right == x => Probe::Hit(Spot::Under(p, false)),
        _ => Probe::Miss,
    }
}

// The answer of an insert or a remove. No From: a bool stands for two of the answers, in these two operations alone.
fn yes_or_no(yes: bool) -> Answer
    ensures { result ≡ said yes }
{
    if yes { Answer::Yes } else { Answer::No }
}

// An update's new base, in place of b.
fn newer(spot: Spot, at: u8, b: Node, content: Content) -> Write
    ensures { effect_of result ≡ newer spot at b content }
{
    Write::Base {
        spot,
        at,
        kind: Kind::Normal,
        parent: b.parent,
        content,
        main: 0,
    }
}

// The comparison of an update's or a split's swap succeeded.
pub fn replace(spot: Spot, b: Node, used: u16, th: Notes) -> Decision
    ensures { Decides th result (replaced spot b used) }
{
    let Ok(at) = u8::try_from(used) else {
        return Decision::NodesOut;
    };
    match th.action {
        Action::Insert => {
            let held = container::contains(b.container, th.station);
            let content = Content::With(th.base, th.station, th.extra);
            Decision::Answers {
                effect: newer(spot, at, b, content),
                answer: yes_or_no(!held),
            }
        }
        Action::Remove => {
            let held = container::contains(b.container, th.station);
            let content = Content::Without(th.base, th.station);
            Decision::Answers {
                effect: newer(spot, at, b, content),
                answer: yes_or_no(held),
            }
        }
        Action::Split if at < 254 => Decision::Answers {
            effect: Write::Fork {
                spot,
                at,
                left: at + 1,
                right: at + 2,
                key: container::split_key(b.container),
                base: th.base,
            },
            answer: Answer::Yes,
        },
        _ => Decision::NodesOut,
    }
}

// The three swaps of a step. They differ in the base, in the first place, in what is written and noted on success and in what failure leads to: one
// function would take each of these, what success does as a closure, and be no plainer.

// 10 to 13: the thread's own base.
pub fn own(view: &View, th: Notes, q: Quarter) -> Decision
    ensures { Decides th result (step (swap own q) (seen view.now)) }
{
    let b = nodes::node_at(view.nodes, th.base);
    match look(view.nodes, view.root, b.parent, th.base, q) {
        Probe::Hit(spot) => replace(spot, b, view.used, th),
        Probe::Next(r) => Decision::go(r.place_from(10)),
        Probe::Miss => search::lose(th),
    }
}

// 26 to 29: the base found, for a new neighbour.
pub fn found(view: &View, th: Notes, q: Quarter) -> Decision
    ensures { Decides th result (step (swap found q) (seen view.now)) }
{
    let b = nodes::node_at(view.nodes, th.found);
    match look(view.nodes, view.root, b.parent, th.found, q) {
        Probe::Hit(spot) => {
            let Ok(at) = u8::try_from(view.used) else {
                return Decision::NodesOut;
            };
            Decision::Goes {
                effect: Write::Base {
                    spot,
                    at,
                    kind: Kind::Neighbour,
                    parent: b.parent,
                    content: Content::Of(th.found),
                    main: th.main,
                },
                place: 30,
                note: Note::Neighbour(at),
            }
        }
        Probe::Next(r) => Decision::go(r.place_from(26)),
        Probe::Miss => Decision::go(38),
    }
}

// 41 to 44: the neighbour, for the union node.
pub fn united(view: &View, th: Notes, q: Quarter) -> Decision
    ensures { Decides th result (step (swap united q) (seen view.now)) }
{
    let m = nodes::node_at(view.nodes, th.main);
    let b = nodes::node_at(view.nodes, m.neighbour);
    match look(view.nodes, view.root, b.parent, m.neighbour, q) {
        Probe::Hit(spot) => Decision::write(45, Write::Swing { spot, to: m.union }),
        Probe::Next(r) => Decision::go(r.place_from(41)),
        Probe::Miss => Decision::go(45),
    }
}
