// Queue 0: the peer's Sends, and the buffers that they go to.
ghost use Rattle.std.specs.Prelude.{◌≡◌};
ghost use Rattle.rdmap.specs.Sends.{
  empty_sends,
  current_buffer,
  posted_sends,
  sending_sends,
  sent_sends,
  send_queue,
};

use ddp::untagged::{Queue, next_msn};
use memory::buffer::{Buffer, Buffers};
use memory::part::Part;
use wire::refusal::LocalRefusal;

// The next MSN, the opcode of a Send under way (0: none), how many of its bytes are taken, and the
// buffers that wait.
#[repr(C)]
#[derive(Clone, Copy)]
pub struct Sends {
    pub msn: u32,
    pub opcode: u8,
    pub taken: u32,
    pub buffers: Buffers,
}

// No Send under way and no buffer, with the next MSN.
pub fn empty_sends(msn: u32) -> Sends
    ensures { result ≡ empty_sends msn }
{
    let buffer = Buffer { start: 0, len: 0 };
    Sends {
        msn,
        opcode: 0,
        taken: 0,
        buffers: Buffers {
            count: 0,
            entries: [buffer; 8],
        },
    }
}

impl Sends {
    // The buffer that the Sends go to; zeros where none waits.
    pub fn current(self) -> Buffer
        ensures { result ≡ current_buffer self }
    {
        self.buffers.entries[0]
    }

    // Posts a buffer in the domain's part: what posting answers, and the queue after it.
    pub fn post(self, part: Part, start: u64, len: u64) -> (Result<(), LocalRefusal>, Sends)
        ensures { result ≡ posted_sends self part start len }
    {
        let (outcome, buffers) = self.buffers.post(part, start, len);
        (outcome, Sends { buffers, ..self })
    }

    // A Send goes on: its opcode, and how many of its bytes are taken.
    pub fn sending(self, opcode: u8, taken: u32) -> Sends
        ensures { result ≡ sending_sends self opcode taken }
    {
        Sends {
            opcode,
            taken,
            ..self
        }
    }

    // A Send is complete: its buffer is gone, and the next one has the next MSN.
    pub fn sent(self) -> Sends
        ensures { result ≡ sent_sends self }
    {
        Sends {
            msn: next_msn(self.msn),
            opcode: 0,
            taken: 0,
            buffers: self.buffers.popped(),
        }
    }

    // What the queue expects.
    pub fn queue(self) -> Queue
        ensures { result ≡ send_queue self }
    {
        Queue {
            msn: self.msn,
            room: 0 < self.buffers.count,
            limit: self.current().len,
            taken: self.taken,
        }
    }
}
