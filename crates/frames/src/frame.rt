// A frame of a range query, or of helping one.
ghost use Rattle.std.specs.Prelude.{◌≡◌};

use super::stack::Stack;

#[derive(Clone, Copy)]
pub struct Frame {
    // node numbers; the backup is the stack when the last base was added
    pub stack: Stack,
    pub backup: Stack,
    // the stations of the bases added
    pub done: u64,
    // the ends asked, both inside; no store only in a query's own frame, at first
    pub lower: u8,
    pub upper: u8,
    pub store: Option<u8>,
    // the base in hand, the base popped last, the key noted at 70
    pub base: u8,
    pub popped: u8,
    pub key: u8,
    // whether a base is added. The backup is no Option instead: the definitions' frame has both, and a state shows them apart, at different
    // places (snapshot's `Field::Done` and `Field::Backup`)
    pub begun: bool,
}

impl Frame {
    ghost use Rattle.std.specs.Prelude.{None};
    ghost use Rattle.definitions.specs.Frames.{in_hand, adds, tail_of, store_of};
    ghost use Rattle.definitions.specs.Threads.{new_frame};
    ghost use Rattle.frames.specs.View.{held_frame, HasRoom};

    pub const EMPTY: Frame = Frame {
        stack: Stack::EMPTY,
        backup: Stack::EMPTY,
        done: 0,
        lower: 0,
        upper: 0,
        store: None,
        base: 0,
        popped: 0,
        key: 0,
        begun: false,
    };

    // A new frame: its ends and its store, nothing done yet.
    pub fn new(lower: u8, upper: u8, store: Option<u8>) -> Self
        ensures { held_frame result ≡ new_frame lower upper store }
    {
        Frame {
            lower,
            upper,
            store,
            ..Frame::EMPTY
        }
    }

    // The number of its store; 0 for none, as the definitions' `store_of` has it: an effect and a look into the stores take a number.
    pub fn store_number(&self) -> u8
        ensures { result ≡ store_of self.now.store }
    {
        self.store.unwrap_or(0)
    }

    // A base x is pushed, and is in hand.
    pub fn push_base(&mut self, x: u8)
        requires { HasRoom (held_frame self.old) }
        ensures { held_frame self.new ≡ in_hand x (held_frame self.old).stack (held_frame self.old) }
    {
        self.stack.push(x);
        self.base = x;
    }

    // The new base x is on top in place of the old one, and in hand.
    pub fn swap_base(&mut self, x: u8)
        ensures { held_frame self.new ≡ in_hand x (tail_of (held_frame self.old).stack) (held_frame self.old) }
    {
        self.stack.pop();
        self.push_base(x);
    }

    // Done takes the container c, and the backup is the stack.
    pub fn keep(&mut self, c: u64)
        ensures { held_frame self.new ≡ adds c (held_frame self.old) }
    {
        self.done = container::united(self.done, c);
        self.backup = self.stack;
        self.begun = true;
    }
}
