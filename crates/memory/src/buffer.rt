// Untagged buffers: up to eight wait on a stream, the first posted is the first used.
ghost use Rattle.std.specs.Prelude.{◌≡◌, [], ◌∷◌, ◌++◌, drop};
ghost use Rattle.memory.specs.Buffer.{posted, first_of, popped_of};

use crate::part::{Part, inside};
use wire::refusal::LocalRefusal;

// One buffer: where it starts in the store, and how many bytes it holds.
#[repr(C)]
#[derive(Clone, Copy)]
pub struct Buffer {
    pub start: u32,
    pub len: u32,
}

// The buffers that wait, the oldest first; zeros past the count.
// Kept: a count beside entries, and no `ArrayVec`. The memory is fixed (repr(C)), and `posted` and `popped_of` say what
// every entry is, those past the count too.
#[repr(C)]
#[derive(Clone, Copy)]
pub struct Buffers {
    pub count: u32,
    pub entries: [Buffer; 8],
}

// Eight entries without the first: the others move up, and an empty one comes last.
#[tactic(auto, using(crate::proofs::Laws::shifted))]
pub fn moved_up<T: Copy>(e: [T; 8], empty: T) -> [T; 8]
    ensures { result ≡ drop 1 e ++ (empty ∷ []) }
{
    [e[1], e[2], e[3], e[4], e[5], e[6], e[7], empty]
}

impl Buffers {
    // Adds a buffer at the end: what posting answers, and the buffers after it.
    #[tactic(auto, using(crate::proofs::Laws::part_bound), unfolding(crate::specs::Buffer::posted))]
    pub fn post(mut self, part: Part, start: u64, len: u64) -> (Result<(), LocalRefusal>, Buffers)
        ensures { result ≡ posted self part start len }
    {
        if !inside(part, start, len) {
            return (Err(LocalRefusal::BadPlace), self);
        }
        if 8 <= self.count {
            return (Err(LocalRefusal::BuffersFull), self);
        }
        self.entries[self.count as usize] = Buffer {
            start: start as u32,
            len: len as u32,
        };
        self.count += 1;
        (Ok(()), self)
    }

    // The buffer that the next message goes to, the oldest, if one waits.
    #[tactic(auto, unfolding(crate::specs::Buffer::first_of))]
    pub fn first(self) -> Option<Buffer>
        ensures { result ≡ first_of self }
    {
        if self.count == 0 {
            return None;
        }
        Some(self.entries[0])
    }

    // The buffers without the oldest: the others move up.
    #[tactic(auto, unfolding(crate::specs::Buffer::popped_of))]
    pub fn popped(self) -> Buffers
        ensures { result ≡ popped_of self }
    {
        if self.count == 0 {
            return self;
        }
        Buffers {
            count: self.count - 1,
            entries: moved_up(self.entries, Buffer { start: 0, len: 0 }),
        }
    }
}
