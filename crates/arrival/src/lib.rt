// An FPDU that arrives: the first one of some bytes is judged for a stream, its payload is placed, and the stream
// is carried on. All of it is over the parts of a domain that it needs, by value: its part of the store, its
// windows and the one stream. Whatever the bytes are, it answers.
//
// Read `Answer` first, what is answered unless it is refused; then `receive_parts` in the module `parts`. The module `placing` puts the
// payload in its place. The definitions are in specs/Parts.antt.
#![tactic(auto)]

use ddp::refusal::Refusal;

pub mod parts;
pub mod placing;

// What a taken FPDU reports, if anything: a Send that is complete, with its buffer's start, its length
// and its opcode, and the STag that it invalidated; or a Terminate.
#[derive(Clone, Copy)]
pub enum Event {
    Sent {
        start: u32,
        len: u32,
        opcode: u8,
    },
    SentInvalidating {
        start: u32,
        len: u32,
        opcode: u8,
        stag: u32,
    },
    Terminated {
        layer: u8,
        etype: u8,
        code: u8,
    },
}

// What receive answers that is not refused: how many bytes to wait for; the FPDU's total with an event, if
// there is one; or a refusal of the peer's bytes, which ended the stream.
#[derive(Clone, Copy)]
pub enum Answer {
    Wait(usize),
    Taken { total: usize, event: Option<Event> },
    Ended(Refusal),
}
