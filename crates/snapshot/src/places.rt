// Which notes a thread and a frame have at a place.
ghost use Rattle.std.specs.Prelude.{◌≡◌};
ghost use Rattle.snapshot.specs.Parts.{is_at};

use definitions::Place;

// A note: of a thread those up to `Other`, of a frame the rest.
#[derive(Clone, Copy)]
pub enum Field {
    Route,
    Read,
    Base,
    Parent,
    Side,
    Found,
    Neighbour,
    Main,
    Grandparent,
    Other,
    // the base in hand, the base popped, the key noted
    Hand,
    Popped,
    Key,
    Stack,
    Backup,
    // whether a base is done, and the stations done
    Done,
}

impl Field {
    // Whether the note is there at a place: of a frame its thread's, or 0 where it waits.
    pub fn is_at(self, place: Place) -> bool
        ensures { result ≡ is_at self place }
    {
        match self {
            Field::Route => matches!(place, 2 | 4 | 23 | 32),
            Field::Read => place == 2,
            Field::Base => matches!(place, 3 | 5 | 10..=15 | 19..=25),
            Field::Parent => matches!(place, 19..=37),
            Field::Side => matches!(place, 22..=34),
            Field::Found => matches!(place, 24..=29),
            Field::Neighbour => matches!(place, 30..=35),
            Field::Main => matches!(place, 16 | 26..=51),
            Field::Grandparent => matches!(place, 33..=36),
            Field::Other => place == 35,
            Field::Hand => matches!(place, 62..=67 | 74..=80),
            Field::Popped => place == 70,
            Field::Key => place == 72,
            Field::Stack => matches!(place, 61..=80),
            Field::Backup => matches!(place, 0..=59 | 70..=80),
            Field::Done => place != 82,
        }
    }
}
