// The startup of 2012 (RFC 6581): startup frames of revision 2 beside those of revision 1, and what the two
// sides agree by them. `frame` writes and reads the frames, `fields` has the four bytes that the private data
// may start with, and `agree` what a responder answers and what an initiator makes of the answer.
//
// Read `Terms`, `Form` and `FrameRead` first. The definitions that the contracts cite are in specs/Terms.antt,
// specs/Frame.antt and specs/Agree.antt. No public function has a `requires`: each answers whatever comes.
#![tactic(auto)]

pub mod agree;
pub mod fields;
pub mod frame;

// What a side says of itself: whether the connection is peer to peer (A), how many reads it takes at a time
// (IRD) and makes at a time (ORD), and the kinds of a first message that it can do: 4 for Send (B), 2 for Write
// (C) and 1 for Read (D), added. 0x3FFF for a depth says that it is not negotiated here.
// Kept: numbers, as the C interface has them (`rnic_terms` of include/rnic.h), where one that is too high is refused by 1.
#[derive(Clone, Copy)]
pub struct Terms {
    pub peer: bool,
    pub ird: u64,
    pub ord: u64,
    pub kinds: u64,
}

// The form of a startup frame: of revision 1; of revision 2 with S clear; or with S set, so that the private
// data starts with the side's terms.
#[derive(Clone, Copy)]
pub enum Form {
    First,
    Second,
    Enhanced(Terms),
}

// What the startup frame at the start of some bytes is: not whole yet, with the number of bytes to wait for; or
// whole, with its length, C, R of a reply, its form, and where the private data lies, behind the terms where
// there are any.
#[derive(Drop)]
pub enum FrameRead {
    Wait(usize),
    Taken {
        total: usize,
        crc: bool,
        declined: bool,
        form: Form,
        start: usize,
        len: usize,
    },
}

// What a responder answers to a request's terms: the terms that its reply says, with the ORD that it keeps to.
// Its IRD stays its own.
#[derive(Drop)]
pub struct Agreed {
    pub reply: Terms,
    pub ord: u64,
}
