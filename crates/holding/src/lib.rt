// Holding: a stream that holds a partial FPDU until the rest of it comes. TCP cuts where it likes, and
// this is the layer that makes no answer turn on it: what is pending are the bytes held and then those
// of a call, which the domain receives once they are a whole FPDU.
//
// Read `OfferAnswer` first, what an offer answers unless it is refused, then `gather`, which puts a call's bytes behind those held in the stream's
// room. The definitions are in specs/Pending.antt and specs/Offer.antt; the crate `device` does offers
// on a device. `receive` is a domain's receive, which is refused while its stream holds bytes.
#![tactic(auto)]

ghost use Rattle.std.specs.Prelude.{◌≡◌};
ghost use Rattle.holding.specs.Offer.{holds, domain_receives, domain_receives_bytes};

use arrival::{Answer, Event};
use ddp::refusal::Refusal;
use domain::Domain;
use rdmap::stream::Stream;
use wire::refusal::LocalRefusal;

pub mod gather;

// What an offer answers that is not refused: all of its bytes are held; so many of them completed an FPDU, which
// is taken with its total and an event, if there is one; or a refusal of the peer's bytes, which ended the stream.
#[derive(Drop)]
pub enum OfferAnswer {
    Kept(usize),
    Completed {
        taken: usize,
        total: usize,
        event: Option<Event>,
    },
    Ended(Refusal),
}

// Whether a stream is open and holds bytes.
fn holds(s: Stream) -> bool
    ensures { result ≡ holds s }
{
    s.phase.state == 1 && 0 < s.framing.held
}

// Takes the first FPDU of bytes for a stream of the domain of this number, whose bytes are lent; 16 while
// the stream holds bytes.
#[tactic(auto, unfolding(crate::specs::Offer::domain_receives, crate::specs::Offer::domain_receives_bytes, domain::specs::Domain::domain_received, domain::specs::Domain::domain_received_bytes))]
pub fn receive(
    d: Domain,
    number: u64,
    store: &mut [u8],
    slot: u64,
    bytes: &[u8],
) -> (Result<Answer, LocalRefusal>, Domain)
    ensures { (result ≡ domain_receives d number slot bytes.now) × (store.new ≡ domain_receives_bytes d number slot bytes.now store.old) }
{
    if slot <= 3 {
        if holds(d.streams[slot as usize]) {
            return (Err(LocalRefusal::HoldsBytes), d);
        }
        return domain::receive(d, number, store, slot, bytes);
    }
    (Err(LocalRefusal::OutOfRange), d)
}
