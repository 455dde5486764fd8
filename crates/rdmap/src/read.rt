// Queue 1: the peer's Read Requests. Up to eight wait on a stream, first come first taken.
ghost use Rattle.std.specs.Prelude.{◌≡◌, ◌≤◌, length};
ghost use Rattle.rdmap.specs.Read.{
  request_at,
  empty_reads,
  first_read,
  queued_reads,
  popped_reads,
  read_queue,
};

use ddp::untagged::{Queue, next_msn};
use memory::buffer::moved_up;
use wire::number::{get_be32, get_be64};

// One Read Request (RFC 5040, section 4.4): where the peer wants the bytes, how many, and from where.
#[repr(C)]
#[derive(Clone, Copy)]
pub struct ReadRequest {
    pub sink_stag: u32,
    pub sink_to: u64,
    pub size: u32,
    pub source_stag: u32,
    pub source_to: u64,
}

// The next MSN, and the requests that wait, in the order in which they came; zeros past the count.
// Kept: a count beside entries, and no `ArrayVec`. The memory is fixed (repr(C)), and `queued_reads` and `popped_reads`
// say what every entry is, those past the count too.
#[repr(C)]
#[derive(Clone, Copy)]
pub struct Reads {
    pub msn: u32,
    pub count: u32,
    pub entries: [ReadRequest; 8],
}

// The request in the 28 bytes of a payload.
pub(crate) fn request_of(payload: &[u8]) -> ReadRequest
    requires { 28 ≤ length payload.now }
    ensures { result ≡ request_at payload.now }
{
    ReadRequest {
        sink_stag: get_be32(payload, 0),
        sink_to: get_be64(payload, 4),
        size: get_be32(payload, 12),
        source_stag: get_be32(payload, 16),
        source_to: get_be64(payload, 20),
    }
}

// No request.
const NO_READ: ReadRequest = ReadRequest {
    sink_stag: 0,
    sink_to: 0,
    size: 0,
    source_stag: 0,
    source_to: 0,
};

// No request waits, with the next MSN.
pub fn empty_reads(msn: u32) -> Reads
    ensures { result ≡ empty_reads msn }
{
    Reads {
        msn,
        count: 0,
        entries: [NO_READ; 8],
    }
}

impl Reads {
    // The head of the queue; zeros where none waits.
    pub fn first(self) -> ReadRequest
        ensures { result ≡ first_read self }
    {
        self.entries[0]
    }

    // One more at the end, and the next has the next MSN; full, the queue stays as it is.
    #[tactic(auto, unfolding(crate::specs::Read::queued_reads))]
    pub fn queued(mut self, read: ReadRequest) -> Reads
        ensures { result ≡ queued_reads self read }
    {
        if self.count < 8 {
            self.entries[self.count as usize] = read;
            self.count += 1;
            self.msn = next_msn(self.msn);
        }
        self
    }

    // The queue without its head: the others move up.
    #[tactic(auto, unfolding(crate::specs::Read::popped_reads))]
    pub fn popped(self) -> Reads
        ensures { result ≡ popped_reads self }
    {
        if self.count == 0 {
            return self;
        }
        Reads {
            count: self.count - 1,
            entries: moved_up(self.entries, NO_READ),
            ..self
        }
    }

    // What the queue expects.
    pub fn queue(self) -> Queue
        ensures { result ≡ read_queue self }
    {
        Queue {
            msn: self.msn,
            room: self.count < 8,
            limit: 28,
            taken: 0,
        }
    }
}
