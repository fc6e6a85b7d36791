// 1 to 3: the search and the base reached; with the stop on, 4 and 5, where a search is counted and no longer. 15 and 16: a base that
// is blocked. The check of a base is nodes::check, at 3 and at 15.
// Of these places a query comes to 15 and 16 alone; at the others it is Full, as the definitions say.
#![tactic(auto, using(std::proofs::lemmas::Bool::Decides::nat_tests), unfolding(container::specs::Choice::ite, definitions::specs::Steps::reached, definitions::specs::Steps::onward, definitions::specs::Steps::followed, definitions::specs::Steps::lost, definitions::specs::Steps::lacks, definitions::specs::Steps::blocked, definitions::specs::Steps::cleared, definitions::specs::Steps::step, definitions::specs::Nodes::replaceable, crate::specs::Decision::read_at, crate::specs::Decision::counting))]

ghost use Rattle.std.specs.Prelude.{◌≡◌, [], ◌<◌, ◌≤◌};
ghost use Rattle.nodes.specs.Table.{table};
ghost use Rattle.nodes.specs.View.{seen};
ghost use Rattle.container.specs.Choice.{ite};
ghost use Rattle.container.specs.Container.{has};
ghost use Rattle.definitions.specs.Nodes.{child_for};
ghost use Rattle.definitions.specs.declared.Answer.TheVariants.{No, At};
ghost use Rattle.definitions.specs.declared.Effect.TheVariants.{Quiet};
ghost use Rattle.definitions.specs.Places.{place_of};
ghost use Rattle.definitions.specs.Steps.{at_leaf, reached, onward, followed, help_by, blocked, lacks, cleared, lost, step};
ghost use Rattle.steps.specs.Decision.{thread, Decides, read_at, counting};

use super::{Decision, Note, Notes, on_way};
use definitions::{Action, Answer, Check, Node, Nodes, Stage};
use effects::Write;
use nodes::View;

// 1, 2: the routes read since 1, after the step that a thread takes there with the stop on; 9 stands for more than 8.
pub fn read_after(th: Notes) -> u8
    ensures { result ≡ read_at th.place th.read }
{
    match th.place {
        2 => th.read.min(8) + 1,
        _ => 0,
    }
}

// What a lookup of the station says at the base x, which is n.
fn look_up(n: Node, station: u8, x: u8) -> Answer
    ensures { result ≡ ite (has n.container station) (At x) No }
{
    if container::contains(n.container, station) {
        Answer::At(x)
    } else {
        Answer::No
    }
}

// 1, 2: node x is read. At 1 it is the root.
pub fn reach(nodes: &Nodes, th: Notes, x: u8) -> Decision
    ensures { Decides th result (λ h. reached (table nodes.now) h x) }
{
    on_way(nodes, x, 2, |n| match th.action {
        Action::Lookup => Decision::say(look_up(n, th.station, x)),
        Action::Query => Decision::NodesOut,
        _ => Decision::note(3, Note::Base(x)),
    })
}

// 2, 4: a search that is counted goes on from x, to 2 or, at a base, to 5.
pub fn pass(nodes: &Nodes, th: Notes, x: u8) -> Decision
    ensures { Decides th result (λ h. onward Quiet (table nodes.now) h x) }
{
    on_way(nodes, x, 2, |_| Decision::note(5, Note::Base(x)))
}

// 2: x, the child of a route, is read. With the stop on the 8th route leads to 4.
pub fn follow(nodes: &Nodes, on: bool, th: Notes, x: u8) -> Decision
    ensures { Decides th result (λ h. followed on (table nodes.now) h x) }
{
    if !on || th.read < 8 {
        reach(nodes, th, x)
    } else if th.read == 8 {
        Decision::note(4, Note::Route(x))
    } else {
        pass(nodes, th, x)
    }
}

// 5: a lookup finishes, others go to 3.
pub fn release(nodes: &Nodes, th: Notes) -> Decision
    ensures { Decides th result (λ h. at_leaf h.action (table nodes.now) h h.base) }
{
    match th.action {
        Action::Lookup => {
            let n = nodes::node_at(nodes, th.base);
            Decision::say(look_up(n, th.station, th.base))
        }
        Action::Query => Decision::NodesOut,
        _ => Decision::go(3),
    }
}

// A swap that failed: updates go to 15, others finish no.
pub fn lose(th: Notes) -> Decision
    ensures { Decides th result lost }
{
    match th.action {
        Action::Lookup => Decision::say(Answer::No),
        Action::Insert | Action::Remove => Decision::go(15),
        Action::Split | Action::Join => Decision::say(Answer::Lost),
        Action::Query => Decision::NodesOut,
    }
}

// 3: too few stations for a split, or no parent for a join.
pub fn lacking(b: Node, th: Notes) -> bool
    ensures { result ≡ lacks b (thread th []) }
{
    match th.action {
        Action::Split => container::count(b.container) < 2,
        Action::Join => b.parent.is_none(),
        _ => false,
    }
}

// 3 where the base is not replaceable, and 15: what the check of the base leads to.
pub fn help(c: Check, th: Notes) -> Decision
    ensures { Decides th result (help_by c) }
{
    match c {
        Check::Replaceable | Check::Stale => Decision::Back {
            effect: Write::Quiet,
        },
        Check::Preparing(main) => Decision::note(16, Note::Main { main, owner: false }),
        Check::Completing(main) => Decision::note(40, Note::Main { main, owner: false }),
        Check::Unset { .. } => Decision::note(60, Note::Opened),
    }
}

// 3: the base is not replaceable. An update goes straight to 16, 40 or 1, or helps a range base; split and join finish no.
pub fn block(c: Check, th: Notes) -> Decision
    ensures { Decides th result (blocked c) }
{
    match th.action {
        Action::Lookup => Decision::say(Answer::No),
        Action::Insert | Action::Remove => help(c, th),
        Action::Split | Action::Join => Decision::say(Answer::Blocked),
        Action::Query => Decision::NodesOut,
    }
}

// 3: the base b is replaceable. With the stop on a join goes to 19.
pub fn clear(b: Node, on: bool, th: Notes) -> Decision
    ensures { Decides th result (cleared on b) }
{
    match th.action {
        Action::Lookup => Decision::say(Answer::No),
        Action::Insert | Action::Remove | Action::Split => Decision::go(10),
        Action::Join => match b.parent {
            None => Decision::say(Answer::Lacking),
            Some(p) if on => Decision::note(19, Note::Parent(p)),
            Some(p) => Decision::note(20, Note::Parent(p)),
        },
        Action::Query => Decision::NodesOut,
    }
}

// 2, of a thread that has noted the routes read where the stop is on (`read_after`): its route's child on the station's way is read.
pub fn descend(nodes: &Nodes, on: bool, th: Notes) -> Decision
    ensures { Decides th result (λ h. followed on (table nodes.now) h (child_for h.station (table nodes.now h.route))) }
{
    let n = nodes::node_at(nodes, th.route);
    follow(nodes, on, th, nodes::child_for(th.station, n))
}

// 3: is the base replaceable?
pub fn examine(view: &View, th: Notes) -> Decision
    requires { th.place ≡ 3 }
    ensures { Decides th result (step (place_of th.place) (seen view.now)) }
{
    let b = nodes::node_at(view.nodes, th.base);
    if lacking(b, th) {
        return Decision::say(Answer::Lacking);
    }
    let c = nodes::check(view.nodes, view.results, th.base);
    if nodes::is_replaceable(c) {
        clear(b, view.stop.on, th)
    } else {
        block(c, th)
    }
}

// 4, 5: a search is counted, and no longer. The count itself is changed by the run.
pub fn count(nodes: &Nodes, th: Notes) -> Decision
    requires { (3 < th.place) × (th.place < 10) }
    ensures { Decides th result (counting th.place (table nodes.now)) }
{
    match th.place {
        4 => pass(nodes, th, th.route),
        5 => release(nodes, th),
        _ => Decision::go(th.place),
    }
}

// 15, 16.
pub fn unblock(view: &View, th: Notes) -> Decision
    requires { (14 ≤ th.place) × (th.place < 19) }
    ensures { Decides th result (step (place_of th.place) (seen view.now)) }
{
    match th.place {
        15 => help(nodes::check(view.nodes, view.results, th.base), th),
        16 => {
            let m = nodes::node_at(view.nodes, th.main);
            let effect = if nodes::is_preparing(m.stage) {
                Write::Settle {
                    main: th.main,
                    stage: Stage::Aborted,
                }
            } else {
                Write::Quiet
            };
            Decision::Back { effect }
        }
        _ => Decision::go(th.place),
    }
}
