// A stack of node numbers, of at most 88. That it has room for a push is known of every run (answers, `reach_entries`; queries, `query_fits`).
ghost use Rattle.std.specs.Prelude.{◌≤◌};

#[derive(Clone, Copy)]
pub struct Stack {
    // the last one pushed is the top; what stands past the length is of no account. A length beside them: there is no heap
    items: [u8; 88],
    length: usize,
    ghost fits: { length ≤ 88 },
}

impl Stack {
    ghost use Rattle.std.specs.Prelude.{◌≡◌, ◌<◌, ◌↔◌, [], ◌∷◌, length, get_or, IsTrue};
    ghost use Rattle.std.specs.List.{slice_get};
    ghost use Rattle.definitions.specs.Frames.{top_of, tail_of};
    ghost use Rattle.frames.specs.View.{held_stack};

    pub const EMPTY: Stack = Stack {
        items: [0; 88],
        length: 0,
    };

    pub fn len(&self) -> usize
        ensures { result ≡ length (held_stack self.now) }
    {
        self.length // at most 88
    }

    pub fn is_empty(&self) -> bool
        ensures { IsTrue result ↔ (held_stack self.now ≡ []) }
    {
        self.len() == 0
    }

    // Entry i, the top first; 0 where there is none: as `top`, and a state shows 0 there.
    pub fn entry(&self, i: usize) -> u8
        ensures { result ≡ get_or (held_stack self.now) i 0 }
    {
        if i < self.length {
            return self.items[self.length - 1 - i];
        }
        0
    }

    // The top; 0 where it is empty, as the definitions' `top_of` has it: no step of a run reads the top of an empty stack, so an Option would
    // be one more case at each.
    pub fn top(&self) -> u8
        ensures { result ≡ top_of (held_stack self.now) }
    {
        self.entry(0)
    }

    pub fn push(&mut self, x: u8)
        requires { length (held_stack self.old) < 88 }
        ensures { held_stack self.new ≡ x ∷ held_stack self.old }
    {
        self.items[self.length] = x;
        self.length += 1;
    }

    pub fn pop(&mut self) -> Option<u8>
        ensures top { result ≡ slice_get (held_stack self.old) 0 }
        ensures rest { held_stack self.new ≡ tail_of (held_stack self.old) }
        ensures room { length (held_stack self.new) < 88 }
    {
        if self.length == 0 {
            return None;
        }
        self.length -= 1;
        Some(self.items[self.length])
    }

    pub fn clear(&mut self)
        ensures { held_stack self.new ≡ [] }
    {
        self.length = 0;
    }
}
