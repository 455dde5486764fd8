// RNIC, the device (the paper's box): four protection domains over one lent store, by value. A call
// judges the number that it names, takes the owner's entry out, and its part of the store where it
// needs it, calls the domain's function, and puts the entry back, also where the call was refused. It
// answers a pair: what it says, and the device after it.
//
// Read `Rnic` first, then `receive`. The definitions that the contracts cite are in specs/Rnic.antt;
// each is the owner's step of the crate `domain`, lifted. No public function has a `requires`.
#![tactic(auto)]

ghost use Rattle.std.specs.Prelude.{◌≡◌, ◌<◌, ◌≤◌, length, leb, ◌∷◌, []};
ghost use Rattle.wire.specs.Wire.{both};
ghost use Rattle.domain.specs.declared.Domain.{Domain};
ghost use Rattle.rnic.specs.Rnic.{
  domain_at,
  opened_rnic,
  new_rnic,
  with_domain,
  in_order,
  rnic_opened,
  rnic_closed,
  rnic_posted,
  rnic_taken,
  rnic_state,
  rnic_received,
  rnic_received_store,
  received_owned,
  received_owned_store,
  rnic_registered,
  rnic_dropped,
  rnic_live,
  rnic_free,
  rnic_ticked,
  rnic_reading,
};

use arrival::Answer;
use domain::{Domain, new_domain};
use memory::part::fits_in;
use meter::gauge::Reading;
use rdmap::read::ReadRequest;
use rdmap::stream::{Left, State};
use wire::refusal::LocalRefusal;

// The length of the store, and the four domains.
#[repr(C)]
#[derive(Clone, Copy)]
pub struct Rnic {
    pub len: u32,
    pub domains: [Domain; 4],
}

// A device of a length with four parts.
fn new_rnic(
    len: u32,
    s0: u32,
    e0: u32,
    s1: u32,
    e1: u32,
    s2: u32,
    e2: u32,
    s3: u32,
    e3: u32,
) -> Rnic
    ensures { result ≡ new_rnic len s0 e0 s1 e1 s2 e2 s3 e3 }
{
    Rnic {
        len,
        domains: [
            new_domain(s0, e0),
            new_domain(s1, e1),
            new_domain(s2, e2),
            new_domain(s3, e3),
        ],
    }
}

// Whether a length is one that a store can have.
pub fn length_in_range(len: u64) -> bool
    ensures { result ≡ both (leb 1 len) (leb len 16777216) }
{
    1 <= len && len <= 16777216
}

// Whether each part starts at or after the end of the one before, and none ends past the store's end.
pub fn in_order(
    len: u64,
    s0: u64,
    e0: u64,
    s1: u64,
    e1: u64,
    s2: u64,
    e2: u64,
    s3: u64,
    e3: u64,
) -> bool
    ensures { result ≡ in_order 0 (s0 ∷ e0 ∷ s1 ∷ e1 ∷ s2 ∷ e2 ∷ s3 ∷ e3 ∷ []) len }
{
    s0 <= e0 && e0 <= s1 && s1 <= e1 && e1 <= s2 && s2 <= e2 && e2 <= s3 && s3 <= e3 && e3 <= len
}

// Opens a device over a store of a length, with four parts; the store is not touched.
#[tactic(auto, using(crate::proofs::Order::ordered), unfolding(crate::specs::Rnic::opened_rnic))]
pub fn open(
    len: u64,
    s0: u64,
    e0: u64,
    s1: u64,
    e1: u64,
    s2: u64,
    e2: u64,
    s3: u64,
    e3: u64,
) -> (Result<(), LocalRefusal>, Rnic)
    ensures { result ≡ opened_rnic len s0 e0 s1 e1 s2 e2 s3 e3 }
{
    if length_in_range(len) {
        if in_order(len, s0, e0, s1, e1, s2, e2, s3, e3) {
            return (
                Ok(()),
                new_rnic(
                    len as u32, s0 as u32, e0 as u32, s1 as u32, e1 as u32, s2 as u32, e2 as u32,
                    s3 as u32, e3 as u32,
                ),
            );
        }
        return (
            Err(LocalRefusal::BadPlace),
            new_rnic(0, 0, 0, 0, 0, 0, 0, 0, 0),
        );
    }
    (
        Err(LocalRefusal::OutOfRange),
        new_rnic(0, 0, 0, 0, 0, 0, 0, 0, 0),
    )
}

// The device with one domain's entry exchanged.
fn with_domain(mut b: Rnic, owner: usize, d: Domain) -> Rnic
    requires { owner < 4 }
    ensures { result ≡ with_domain b owner d }
{
    b.domains[owner] = d;
    b
}

// A call on the entry of one domain, which is then put back.
fn on_owner<A, F: FnOnce(Domain) -> (A, Domain)>(b: Rnic, owner: usize, call: F) -> (A, Rnic)
    requires owner { owner < 4 }
    requires call { F.IsAlwaysCallable call }
    ensures { (d : Domain) × F.post call (domain_at b owner) (result.0, d) × (result.1 ≡ with_domain b owner d) }
{
    let (answer, domain) = call(b.domains[owner]);
    (answer, with_domain(b, owner, domain))
}

// Opens a stream with the CRC on or off.
#[tactic(auto, unfolding(crate::specs::Rnic::rnic_opened))]
pub fn open_stream(b: Rnic, stream: u64, crc: bool) -> (Result<(), LocalRefusal>, Rnic)
    ensures { result ≡ rnic_opened b stream crc }
{
    if 15 < stream {
        return (Err(LocalRefusal::OutOfRange), b);
    }
    on_owner(
        b,
        (stream / 4) as usize,
        |d| domain::open_stream(d, stream % 4, crc),
    )
}

// Closes a stream.
#[tactic(auto, unfolding(crate::specs::Rnic::rnic_closed))]
pub fn close_stream(b: Rnic, stream: u64) -> (Result<Left, LocalRefusal>, Rnic)
    ensures { result ≡ rnic_closed b stream }
{
    if 15 < stream {
        return (Err(LocalRefusal::OutOfRange), b);
    }
    on_owner(
        b,
        (stream / 4) as usize,
        |d| domain::close_stream(d, stream % 4),
    )
}

// Posts a buffer on a stream.
#[tactic(auto, unfolding(crate::specs::Rnic::rnic_posted))]
pub fn post(b: Rnic, stream: u64, start: u64, len: u64) -> (Result<(), LocalRefusal>, Rnic)
    ensures { result ≡ rnic_posted b stream start len }
{
    if 15 < stream {
        return (Err(LocalRefusal::OutOfRange), b);
    }
    on_owner(
        b,
        (stream / 4) as usize,
        |d| domain::post(d, stream % 4, start, len),
    )
}

// Takes the oldest read that waits on a stream.
#[tactic(auto, unfolding(crate::specs::Rnic::rnic_taken))]
pub fn take(b: Rnic, stream: u64) -> (Result<ReadRequest, LocalRefusal>, Rnic)
    ensures { result ≡ rnic_taken b stream }
{
    if 15 < stream {
        return (Err(LocalRefusal::OutOfRange), b);
    }
    on_owner(b, (stream / 4) as usize, |d| domain::take(d, stream % 4))
}

// The state of a stream, with what waits on it.
#[tactic(auto, unfolding(crate::specs::Rnic::rnic_state))]
pub fn stream_state(b: Rnic, stream: u64) -> Result<State, LocalRefusal>
    ensures { result ≡ rnic_state b stream }
{
    if stream <= 15 {
        let owner = (stream / 4) as usize;
        return domain::stream_state(b.domains[owner], stream % 4);
    }
    Err(LocalRefusal::OutOfRange)
}

// Registers a window.
#[tactic(auto, unfolding(crate::specs::Rnic::rnic_registered))]
pub fn register(
    b: Rnic,
    window: u64,
    key: u64,
    base: u64,
    len: u64,
    place: u64,
    rights: u64,
) -> (Result<(), LocalRefusal>, Rnic)
    ensures { result ≡ rnic_registered b window key base len place rights }
{
    if 63 < window {
        return (Err(LocalRefusal::OutOfRange), b);
    }
    on_owner(b, (window / 16) as usize, |d| {
        domain::register(d, window % 16, key, base, len, place, rights)
    })
}

// Drops a window.
#[tactic(auto, unfolding(crate::specs::Rnic::rnic_dropped))]
pub fn drop_window(b: Rnic, window: u64) -> (Result<(), LocalRefusal>, Rnic)
    ensures { result ≡ rnic_dropped b window }
{
    if 63 < window {
        return (Err(LocalRefusal::OutOfRange), b);
    }
    on_owner(
        b,
        (window / 16) as usize,
        |d| domain::drop_window(d, window % 16),
    )
}

// How many windows of a domain are live.
#[tactic(auto, unfolding(crate::specs::Rnic::rnic_live))]
pub fn live_count(b: Rnic, number: u64) -> Result<u32, LocalRefusal>
    ensures { result ≡ rnic_live b number }
{
    if number <= 3 {
        let windows = b.domains[number as usize].windows;
        return Ok(memory::window::live_count(windows));
    }
    Err(LocalRefusal::OutOfRange)
}

// Which of a domain's sixteen slots is the lowest free; 16 if none.
#[tactic(auto, unfolding(crate::specs::Rnic::rnic_free))]
pub fn lowest_free(b: Rnic, number: u64) -> Result<u32, LocalRefusal>
    ensures { result ≡ rnic_free b number }
{
    if number <= 3 {
        let windows = b.domains[number as usize].windows;
        return Ok(memory::window::lowest_free(windows));
    }
    Err(LocalRefusal::OutOfRange)
}

// Takes the first FPDU of bytes for a stream in range, with a store of the right length: the owner is
// lent its own part.
#[tactic(auto, unfolding(crate::specs::Rnic::received_owned, crate::specs::Rnic::received_owned_store))]
fn receive_owned(
    b: Rnic,
    store: &mut [u8],
    stream: u64,
    bytes: &[u8],
) -> (Result<Answer, LocalRefusal>, Rnic)
    requires { stream ≤ 15 }
    ensures { (result ≡ received_owned b (length store.old) stream bytes.now) × (store.new ≡ received_owned_store b stream bytes.now store.old) }
{
    let number = stream / 4;
    let owner = number as usize;
    let dom = b.domains[owner];
    let all = store.len();
    if fits_in(dom.part, all) {
        let start = dom.part.start as usize;
        let end = dom.part.end as usize;
        let (answer, domain) = holding::receive(
            dom,
            number,
            &mut store[start..end],
            stream % 4,
            bytes,
        );
        return (answer, with_domain(b, owner, domain));
    }
    (Err(LocalRefusal::BadPlace), b)
}

// Takes the first FPDU of bytes for a stream; the store is lent.
#[tactic(auto, unfolding(crate::specs::Rnic::rnic_received, crate::specs::Rnic::rnic_received_store))]
pub fn receive(
    b: Rnic,
    store: &mut [u8],
    stream: u64,
    bytes: &[u8],
) -> (Result<Answer, LocalRefusal>, Rnic)
    ensures { (result ≡ rnic_received b (length store.old) stream bytes.now) × (store.new ≡ rnic_received_store b stream bytes.now store.old) }
{
    if stream <= 15 {
        if store.len() == b.len as usize {
            return receive_owned(b, store, stream, bytes);
        }
        return (Err(LocalRefusal::OtherLength), b);
    }
    (Err(LocalRefusal::OutOfRange), b)
}

// Ticks a domain: the bytes placed since its last tick are a sample of its gauge.
#[tactic(auto, unfolding(crate::specs::Rnic::rnic_ticked))]
pub fn tick(b: Rnic, number: u64) -> (Result<(), LocalRefusal>, Rnic)
    ensures { result ≡ rnic_ticked b number }
{
    if 3 < number {
        return (Err(LocalRefusal::OutOfRange), b);
    }
    on_owner(b, number as usize, |d| (Ok(()), domain::tick(d)))
}

// What a domain's gauge reads as.
#[tactic(auto, unfolding(crate::specs::Rnic::rnic_reading))]
pub fn reading(b: Rnic, number: u64) -> Result<Reading, LocalRefusal>
    ensures { result ≡ rnic_reading b number }
{
    if number <= 3 {
        return Ok(domain::reading(b.domains[number as usize]));
    }
    Err(LocalRefusal::OutOfRange)
}
