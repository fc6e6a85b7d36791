// The places: what one step of a thread decides. It reads the nodes and writes nothing; its effect is carried out by crate effects.
#![tactic(auto)]

ghost use Rattle.std.specs.Prelude.{◌≡◌, true, false};
ghost use Rattle.nodes.specs.Table.{table};
ghost use Rattle.definitions.specs.Nodes.{is_route};
ghost use Rattle.effects.specs.declared.Write.TheVariants.{Quiet};
ghost use Rattle.steps.specs.declared.Note.TheVariants.{Route};
ghost use Rattle.steps.specs.declared.Decision.TheVariants.{Goes};

use definitions::{Action, Answer, Node, Nodes, Place};
use effects::Write;

// A run takes the places apart (crate run), below 60 (from there on: crate queries), so that each part reads few of the thread's notes and what
// it decides is carried out at once: `search::reach` is for 1, `search::descend` for 2, `search::examine` for 3; with the stop on, `search::count` for 4 and 5;
// `search::unblock` for 15 and 16; `swap::own`, `swap::found` and `swap::united` for the swaps; `join::approach`, `join::prepare`,
// `complete::begin` and `complete::finish` for the rest of a join. In a part each arm of a match on a place is a place of 01 or 02, or, the last, the
// numbers that no place has: a function handed in for each would be no plainer.
pub mod search; // 1 to 5, 15, 16: the search, the base reached, a base that is blocked
pub mod swap; // 10 to 13, 26 to 29, 41 to 44: the four-step swap
pub mod join; // 19 to 38: a join until its stage is a node number
pub mod complete; // 40 to 51: a join that is completed, by its owner or a helper

// A thread: its operation, its place and its notes. The frames of range queries lie apart.
#[derive(Clone, Copy)]
pub struct Notes {
    pub action: Action,
    pub station: u8,
    // of an insert its depth, of a query its upper end
    pub extra: u16,
    // 0 where the thread is idle: 01 has no place 0, and a state shows it. An Option would be turned back into it there, and be no plainer
    pub place: Place,
    // 2, 23, 32: the route reached; 4: the child read
    pub route: u8,
    // with the stop on: the routes whose child was read since 1, 9 for more than 8; a search at 2 with 8 or 9 is counted. A number, no Option or
    // enum: it is a count, it is only compared with 8, and a state shows it up to there
    pub read: u8,
    // the base reached
    pub base: u8,
    // of a join: the base's parent, and whether the base is its left child
    pub parent: u8,
    pub left: bool,
    // of a join: the base found beside it, and the neighbour that replaced it
    pub found: u8,
    pub neighbour: u8,
    // the main that is made, killed or helped, and whether it is the thread's own
    pub main: u8,
    pub owner: bool,
    // of a join: the grandparent, and the parent's other child
    pub grandparent: Option<u8>,
    pub other: u8,
}

impl Notes {
    // Those of an idle thread.
    pub const IDLE: Notes = Notes {
        action: Action::Lookup,
        station: 0,
        extra: 0,
        place: 0,
        route: 0,
        read: 0,
        base: 0,
        parent: 0,
        left: true,
        found: 0,
        neighbour: 0,
        main: 0,
        owner: false,
        grandparent: None,
        other: 0,
    };
}

// What a step notes of its thread, beside the place.
#[derive(Clone, Copy)]
pub enum Note {
    Nothing,
    Route(u8),
    Base(u8),
    Parent(u8),
    // whether the base is its parent's left child
    Side(bool),
    Found(u8),
    Neighbour(u8),
    Main { main: u8, owner: bool },
    Grandparent(Option<u8>),
    Other(u8),
    // a new frame on top of the others, with the ends and the store of the range base reached
    Opened,
}

// What a step decides: the thread goes on, it finishes with the answer, node numbers have run out, or it goes back where its frames lead.
// The effect lies first in each, so that a run finds it at one offset. `NodesOut` stands beside the others and is no `Err`: a full table is one
// of the definitions' turns (`Full`), each part's contract says of one value which turn it is, and a run takes that apart in one match; with a
// Result each decision that is made would stand in an `Ok`, and be no plainer.
#[derive(Clone, Copy)]
pub enum Decision {
    Goes {
        effect: Write,
        place: Place,
        note: Note,
    },
    Answers {
        effect: Write,
        answer: Answer,
    },
    NodesOut,
    Back {
        effect: Write,
    },
}

impl Decision {
    ghost use Rattle.std.specs.Prelude.{◌≡◌};
    ghost use Rattle.effects.specs.declared.Write.TheVariants.{Quiet};
    ghost use Rattle.steps.specs.declared.Note.TheVariants.{Nothing};
    ghost use Rattle.steps.specs.declared.Decision.TheVariants.{Goes, Answers};

    // To a place.
    #[inline]
    pub fn go(place: Place) -> Self
        ensures { result ≡ Goes Quiet place Nothing }
    {
        Self::note(place, Note::Nothing)
    }

    // To a place, with a note.
    #[inline]
    pub fn note(place: Place, note: Note) -> Self
        ensures { result ≡ Goes Quiet place note }
    {
        Decision::Goes {
            effect: Write::Quiet,
            place,
            note,
        }
    }

    // To a place; the effect is written.
    #[inline]
    pub fn write(place: Place, effect: Write) -> Self
        ensures { result ≡ Goes effect place Nothing }
    {
        Decision::Goes {
            effect,
            place,
            note: Note::Nothing,
        }
    }

    // The operation finishes.
    #[inline]
    pub fn say(answer: Answer) -> Self
        ensures { result ≡ Answers Quiet answer }
    {
        Decision::Answers {
            effect: Write::Quiet,
            answer,
        }
    }
}

// Node x is read on the way: a route leads to `place`, with a note, a base to what `at_base` says of it.
#[inline]
fn on_way<F: FnOnce(Node) -> Decision>(nodes: &Nodes, x: u8, place: Place, at_base: F) -> Decision
    requires { F.IsAlwaysCallable at_base }
    ensures route { is_route (table nodes.now x).kind ≡ true → result ≡ Goes Quiet place (Route x) }
    ensures base { is_route (table nodes.now x).kind ≡ false → F.post at_base (table nodes.now x) result }
{
    let n = nodes::node_at(nodes, x);
    if nodes::is_route(n.kind) {
        Decision::note(place, Note::Route(x))
    } else {
        at_base(n)
    }
}
