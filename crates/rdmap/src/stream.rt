// A stream's record: handed in by value, and the changed record handed back, behind what the call answers.
// It is in groups, each of which has its own module; a method here changes one group and names the others whole. A closed
// stream is all zeros, and the entries past a count are zeros, so that equal meaning is equal value.
ghost use Rattle.std.specs.Prelude.{◌≡◌};
ghost use Rattle.rdmap.specs.Stream.{
  closed_stream,
  opened_stream,
  opened,
  closed,
  posted_on,
  taken_from,
  ended_by,
  terminated_by,
  sending_on,
  sent_on,
  queued_on,
  state_of,
  state_in,
};
ghost use Rattle.rdmap.specs.Message.{queue_of};

use crate::framing::{Framing, new_framing, no_framing};
use crate::phase::{Phase, ended_by, phase_of};
use crate::read::{ReadRequest, Reads, empty_reads};
use crate::sends::{Sends, empty_sends};
use crate::terminates::{Terminates, empty_terminates};
use ddp::refusal::Refusal;
use ddp::untagged::Queue;
use memory::part::Part;
use wire::refusal::LocalRefusal;

// Where it stands, how its bytes are read as frames, and what its three queues keep.
// Kept: the methods take the record by value and hand back the changed one, as the devices and slots above lend them.
#[repr(C)]
#[derive(Clone, Copy)]
pub struct Stream {
    pub phase: Phase,
    pub framing: Framing,
    pub sends: Sends,
    pub reads: Reads,
    pub terminates: Terminates,
}

// What a stream leaves that is closed: how many buffers were not finished and how many reads not taken.
#[derive(Drop)]
pub struct Left {
    pub buffers: u32,
    pub reads: u32,
}

// A stream's state: closed; open; ended by a refusal of the peer's bytes; ended by
// the peer's Terminate. One that is not closed comes with how many buffers are not finished and how many
// reads not taken.
#[derive(Drop)]
pub enum State {
    Closed,
    Open {
        buffers: u32,
        reads: u32,
    },
    Ended {
        refusal: Refusal,
        buffers: u32,
        reads: u32,
    },
    Terminated {
        buffers: u32,
        reads: u32,
    },
}

// A closed stream.
pub fn closed_stream() -> Stream
    ensures { result ≡ closed_stream }
{
    Stream {
        phase: phase_of(0),
        framing: no_framing(),
        sends: empty_sends(0),
        reads: empty_reads(0),
        terminates: empty_terminates(0),
    }
}

// A stream that was just opened.
pub fn opened_stream(crc: bool) -> Stream
    ensures { result ≡ opened_stream crc }
{
    Stream {
        phase: phase_of(1),
        framing: new_framing(crc),
        sends: empty_sends(1),
        reads: empty_reads(1),
        terminates: empty_terminates(1),
    }
}

// The state of a stream in this phase, on which so many buffers and reads wait.
#[tactic(auto, unfolding(crate::specs::Stream::state_of))]
pub fn state_of(phase: Phase, buffers: u32, reads: u32) -> State
    ensures { result ≡ state_of phase buffers reads }
{
    match phase.state {
        0 => State::Closed,
        1 => State::Open { buffers, reads },
        2 => State::Ended {
            refusal: phase.refusal,
            buffers,
            reads,
        },
        _ => State::Terminated { buffers, reads },
    }
}

impl Stream {
    // Opens a closed stream, with the CRC on or off.
    #[tactic(auto, unfolding(crate::specs::Stream::opened))]
    pub fn open(self, crc: bool) -> (Result<(), LocalRefusal>, Stream)
        ensures { result ≡ opened self crc }
    {
        if !self.phase.is_closed() {
            return (Err(LocalRefusal::AlreadyOpen), self);
        }
        (Ok(()), opened_stream(crc))
    }

    // Closes an open stream, ended or not, and counts what it leaves.
    #[tactic(auto, unfolding(crate::specs::Stream::closed))]
    pub fn close(self) -> (Result<Left, LocalRefusal>, Stream)
        ensures { result ≡ closed self }
    {
        if self.phase.is_closed() {
            return (Err(LocalRefusal::NotOpen), self);
        }
        (
            Ok(Left {
                buffers: self.sends.buffers.count,
                reads: self.reads.count,
            }),
            closed_stream(),
        )
    }

    // Posts a buffer in the domain's part.
    #[tactic(auto, unfolding(crate::specs::Stream::posted_on))]
    pub fn post(self, part: Part, start: u64, len: u64) -> (Result<(), LocalRefusal>, Stream)
        ensures { result ≡ posted_on self part start len }
    {
        if let Err(refusal) = self.phase.ready() {
            return (Err(refusal), self);
        }
        let (outcome, sends) = self.sends.post(part, start, len);
        (outcome, Stream { sends, ..self })
    }

    // Takes the read that came first of those that wait.
    #[tactic(auto, unfolding(crate::specs::Stream::taken_from))]
    pub fn take(self) -> (Result<ReadRequest, LocalRefusal>, Stream)
        ensures { result ≡ taken_from self }
    {
        if let Err(not_ready) = self.phase.ready() {
            return (Err(not_ready), self);
        }
        if self.reads.count == 0 {
            return (Err(LocalRefusal::NoReadWaits), self);
        }
        (
            Ok(self.reads.first()),
            Stream {
                reads: self.reads.popped(),
                ..self
            },
        )
    }

    // The stream's state, with what waits on it.
    pub fn state(self) -> State
        ensures { result ≡ state_in self }
    {
        state_of(self.phase, self.sends.buffers.count, self.reads.count)
    }

    // What the queue qn expects.
    #[tactic(auto, unfolding(crate::specs::Message::queue_of))]
    pub fn queue_of(self, qn: u32) -> Queue
        ensures { result ≡ queue_of self qn }
    {
        match qn {
            0 => self.sends.queue(),
            1 => self.reads.queue(),
            _ => self.terminates.queue(),
        }
    }

    // Ends the stream by a refusal of the peer's bytes.
    pub fn end(self, refusal: Refusal) -> Stream
        ensures { result ≡ ended_by self refusal }
    {
        Stream {
            phase: ended_by(refusal),
            ..self
        }
    }

    // Ends the stream by the peer's Terminate.
    pub fn terminated(self) -> Stream
        ensures { result ≡ terminated_by self }
    {
        Stream {
            phase: phase_of(3),
            terminates: self.terminates.risen(),
            ..self
        }
    }

    // A Send goes on: its opcode, and how many of its bytes are taken.
    pub fn sending(self, opcode: u8, taken: u32) -> Stream
        ensures { result ≡ sending_on self opcode taken }
    {
        Stream {
            sends: self.sends.sending(opcode, taken),
            ..self
        }
    }

    // A Send is complete.
    pub fn sent(self) -> Stream
        ensures { result ≡ sent_on self }
    {
        Stream {
            sends: self.sends.sent(),
            ..self
        }
    }

    // A Read Request is queued.
    pub fn queued(self, read: ReadRequest) -> Stream
        ensures { result ≡ queued_on self read }
    {
        Stream {
            reads: self.reads.queued(read),
            ..self
        }
    }
}
