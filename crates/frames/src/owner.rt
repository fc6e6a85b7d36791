// Whose frames a step changes.
ghost use Rattle.std.specs.Prelude.{◌<◌, ◌≤◌};

// A thread by its number, and how many frames it has: `depth` of the four from `thread * 4` on, in one array, as they are lent. Numbers alone,
// and the frames are handed on beside it. Tried with `frames: &'a mut Frames` in it: a method that lends the top one of them gets no proof, as
// the borrow checker does not cover what lies behind two steps. `top` gives the row: a function that lends the frame out of `frames` would have
// to state what is written back, and be no plainer than `frames[row]`.
#[derive(Clone, Copy)]
pub struct Owner {
    pub thread: usize,
    pub depth: usize,
    pub ghost four: { thread < 4 },
    pub ghost few: { depth ≤ 4 },
}

impl Owner {
    ghost use Rattle.std.specs.Prelude.{◌≡◌, ◌+◌, ◌-◌, ◌*◌, IfSome};
    ghost use Rattle.frames.specs.View.{top_row};

    pub fn new(thread: usize, depth: usize) -> Self
        requires four { thread < 4 }
        requires few { depth ≤ 4 }
        ensures thread { result.thread ≡ thread }
        ensures depth { result.depth ≡ depth }
    {
        Owner { thread, depth }
    }

    // The same thread once its top frame has ended.
    pub fn below(self) -> Self
        ensures thread { result.thread ≡ self.thread }
        ensures depth { result.depth ≡ self.depth - 1 }
    {
        Owner {
            thread: self.thread,
            depth: self.depth.saturating_sub(1),
        }
    }

    // Where a frame more goes.
    pub fn free(self) -> usize
        requires { self.depth < 4 }
        ensures row { result ≡ self.thread * 4 + self.depth }
        ensures inside { result < 16 }
    {
        self.thread * 4 + self.depth
    }

    // Where its top frame lies.
    pub fn top(self) -> Option<usize>
        ensures row { result ≡ top_row self.thread self.depth }
        ensures inside { IfSome result (λ i. i < 16) }
    {
        if self.depth == 0 {
            return None;
        }
        Some(self.below().free())
    }
}
