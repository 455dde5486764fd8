// What the two sides agree (RFC 6581, section 9): a responder answers a request's terms, and an initiator
// settles by the reply's. Both ask the same of the other side's.
ghost use Rattle.std.specs.Prelude.{◌≡◌, ◌<◌, ◌/◌, ◌%◌, eqb};
ghost use Rattle.wire.specs.Wire.{both};
ghost use Rattle.startup2.specs.Terms.{terms_fit};
ghost use Rattle.startup2.specs.Agree.{reaches as reaches_of, capped_of, kind_of, told_of, reply_of, unanswerable as unanswerable_of, answered_of, unsettled as unsettled_of, kept_of, settled_of};

use crate::fields::{MAX_DEPTH, kinds_of, terms_fit};
use crate::{Agreed, Terms};
use wire::refusal::LocalRefusal;

// Send, Write and Read among the kinds of a first message.
pub const SEND: u64 = 4;

pub const WRITE: u64 = 2;

pub const READ: u64 = 1;

// Whether both sides' numbers fit their fields.
fn both_fit(own: Terms, other: Terms) -> bool
    ensures { result ≡ both (terms_fit own) (terms_fit other) }
{
    terms_fit(own) && terms_fit(other)
}

// Whether our IRD is at least the other side's ORD, where that is negotiated.
fn reaches(ird: u64, ord: u64) -> bool
    ensures { result ≡ reaches_of ird ord }
{
    ord == MAX_DEPTH || ord <= ird
}

// Our ORD, at most the other side's IRD where that is negotiated.
fn capped(ord: u64, ird: u64) -> u64
    ensures { result ≡ capped_of ord ird }
{
    if ird == MAX_DEPTH { ord } else { ord.min(ird) }
}

// Whether both have a kind.
fn both_have(a: u64, b: u64, kind: u64) -> bool
    requires { 0 < kind }
    ensures { result ≡ both (eqb (a / kind % 2) 1) (eqb (b / kind % 2) 1) }
{
    a / kind % 2 == 1 && b / kind % 2 == 1
}

// The first of Send, Write and Read that both have, or 0.
fn kind_of(a: u64, b: u64) -> u64
    ensures { result ≡ kind_of a b }
{
    if both_have(a, b, SEND) {
        return SEND;
    }
    if both_have(a, b, WRITE) {
        return WRITE;
    }
    if both_have(a, b, READ) {
        return READ;
    }
    0
}

// What a reply says of a depth, where the request asked for one.
fn told(asked: u64, depth: u64) -> u64
    ensures { result ≡ told_of asked depth }
{
    if asked == MAX_DEPTH { MAX_DEPTH } else { depth }
}

// The terms of a reply.
fn reply_of(own: Terms, request: Terms) -> Terms
    ensures { result ≡ reply_of own request }
{
    Terms {
        peer: request.peer,
        ird: told(request.ord, own.ird),
        ord: told(request.ird, capped(own.ord, request.ird)),
        kinds: kind_of(own.kinds, kinds_of(request)),
    }
}

// Whether a request is peer to peer, and there is no kind for it.
fn unanswerable(own: Terms, request: Terms) -> bool
    ensures { result ≡ unanswerable_of own request }
{
    request.peer && kind_of(own.kinds, kinds_of(request)) == 0
}

// What a responder answers to a request's terms. Whether the connection is peer to peer is the request's to
// say: of the responder's own terms it is not looked at.
#[tactic(auto, unfolding(crate::specs::Agree::answered_of))]
pub fn answer(own: Terms, request: Terms) -> Result<Agreed, LocalRefusal>
    ensures { result ≡ answered_of own request }
{
    if !both_fit(own, request) {
        return Err(LocalRefusal::OutOfRange);
    }
    if !reaches(own.ird, request.ord) {
        return Err(LocalRefusal::IrdTooSmall);
    }
    if unanswerable(own, request) {
        return Err(LocalRefusal::NoKind);
    }
    Ok(Agreed {
        reply: reply_of(own, request),
        ord: capped(own.ord, request.ird),
    })
}

// Whether a side says peer to peer, and there is no kind that both say.
fn unsettled(own: Terms, reply: Terms) -> bool
    ensures { result ≡ unsettled_of own reply }
{
    (own.peer || reply.peer) && kind_of(kinds_of(own), kinds_of(reply)) == 0
}

// The terms that an initiator keeps to.
fn kept(own: Terms, reply: Terms) -> Terms
    ensures { result ≡ kept_of own reply }
{
    Terms {
        peer: own.peer,
        ird: own.ird,
        ord: capped(own.ord, reply.ird),
        kinds: kind_of(kinds_of(own), kinds_of(reply)),
    }
}

// What an initiator makes of the terms of a reply to its own.
#[tactic(auto, unfolding(crate::specs::Agree::settled_of))]
pub fn settle(own: Terms, reply: Terms) -> Result<Terms, LocalRefusal>
    ensures { result ≡ settled_of own reply }
{
    if !both_fit(own, reply) {
        return Err(LocalRefusal::OutOfRange);
    }
    if !reaches(own.ird, reply.ord) {
        return Err(LocalRefusal::IrdTooSmall);
    }
    if unsettled(own, reply) {
        return Err(LocalRefusal::NoKind);
    }
    Ok(kept(own, reply))
}
