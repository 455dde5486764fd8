// A line on offers: it is run, and its answer is put into a text. What it asks is in the crate `offering`.
ghost use Rattle.std.specs.Prelude.{◌≡◌, length};
ghost use Rattle.block.specs.Device.{rnic_at};
ghost use Rattle.offering.specs.Offering.{offering_of};
ghost use Rattle.offering.specs.Offering.Offering.{offer};
ghost use Rattle.running.specs.Run.{
  state_at,
  line_offers,
  offered_rnic,
  offered_state,
  offered_store,
  offered_rooms,
};

use command::answer::bad;
use command::args::room;
use offering::{Asked, ask, is_offering};
use report::{tell_held, tell_offer};
use rnic_c::{rnic_c_held, rnic_c_offer};
use script::text::Text;

// Whether a line of `count` bytes is a command on offers, which the buffer `line` starts with unless the
// line is too long.
pub fn offers(line: &[u8], count: usize) -> bool
    ensures { result ≡ line_offers line.now count }
{
    if line.len() < count {
        return false;
    }
    is_offering(&line[..count])
}

// Offers bytes to a stream, with the first bytes of the store and of the second slice, as many as are
// asked for and there.
fn make_offer<const N: usize>(
    stream: u64,
    bytes: &[u8],
    lent: u64,
    held: u64,
    device: &mut [u64; 945],
    store: &mut [u8],
    rooms: &mut [u8],
    text: &mut Text<N>,
)
    ensures rnic { rnic_at device.new ≡ offered_rnic (rnic_at device.old) (offer stream bytes.now lent held) store.old rooms.old }
    ensures rest { store.new ≡ offered_store (rnic_at device.old) (offer stream bytes.now lent held) store.old rooms.old }
    ensures rooms { rooms.new ≡ offered_rooms (rnic_at device.old) (offer stream bytes.now lent held) store.old rooms.old }
{
    let most = room(lent, store.len());
    let part = room(held, rooms.len());
    let mut answer = [0u64; 8];
    rnic_c_offer(
        device,
        &mut store[..most],
        &mut rooms[..part],
        stream,
        bytes,
        &mut answer,
    );
    tell_offer(answer, text)
}

// Does what a line on offers asks, where `kept` bytes of the store are lent by one that does not say, and
// answers it. The text alone is not said.
#[tactic(auto, using(crate::proofs::Offers::offer_asked, crate::proofs::Offers::held_asked, crate::proofs::Offers::bad_asked))]
fn answer_offering<const N: usize>(
    line: &[u8],
    kept: u64,
    device: &mut [u64; 945],
    bytes: &mut [u8],
    store: &mut [u8],
    rooms: &mut [u8],
    text: &mut Text<N>,
)
    ensures rnic { rnic_at device.new ≡ offered_rnic (rnic_at device.old) (offering_of kept (length store.old) (length rooms.old) (length bytes.old) line.now) store.old rooms.old }
    ensures rest { store.new ≡ offered_store (rnic_at device.old) (offering_of kept (length store.old) (length rooms.old) (length bytes.old) line.now) store.old rooms.old }
    ensures rooms { rooms.new ≡ offered_rooms (rnic_at device.old) (offering_of kept (length store.old) (length rooms.old) (length bytes.old) line.now) store.old rooms.old }
{
    match ask(line, kept, store.len(), rooms.len(), bytes) {
        Some(
            Asked::Offer {
                stream,
                size,
                lent,
                held,
            },
        ) => make_offer(
            stream,
            &bytes[..size],
            lent,
            held,
            device,
            store,
            rooms,
            text,
        ),
        Some(Asked::Held(stream)) => tell_held(rnic_c_held(device, stream) as u64, text),
        None => bad(text),
    }
}

// Runs a line on offers, and answers it. What is lent later stays.
pub fn run_offering<const N: usize>(
    kept: u64,
    device: &mut [u64; 945],
    line: &[u8],
    bytes: &mut [u8],
    store: &mut [u8],
    rooms: &mut [u8],
    text: &mut Text<N>,
)
    ensures state { state_at kept device.new ≡ offered_state (state_at kept device.old) (offering_of kept (length store.old) (length rooms.old) (length bytes.old) line.now) store.old rooms.old }
    ensures rest { store.new ≡ offered_store (rnic_at device.old) (offering_of kept (length store.old) (length rooms.old) (length bytes.old) line.now) store.old rooms.old }
    ensures rooms { rooms.new ≡ offered_rooms (rnic_at device.old) (offering_of kept (length store.old) (length rooms.old) (length bytes.old) line.now) store.old rooms.old }
{
    answer_offering(line, kept, device, bytes, store, rooms, text);
}
