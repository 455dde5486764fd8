// Two writers on one spot: whether some bytes are already those of a domain's live window that a peer may
// write, or of one of its buffers that waits.
ghost use Rattle.std.specs.Prelude.{◌≡◌, ◌<◌};
ghost use Rattle.wire.specs.Wire.{both};
ghost use Rattle.overlap.specs.Sharing.{writes, windows_share, waiting, buffers_share, streams_share};
ghost use Rattle.domain.specs.Sharing.{domain_shares};
ghost use Rattle.rnic.specs.Rnic.{domain_at};
ghost use Rattle.block.specs.Device.{rnic_at};
ghost use Rattle.block.specs.Exchange.{stream_of};

use crate::place::StreamPlace;
use block::sends::{load_head, load_sends};
use block::window::load_window;
use overlap::{buffers_share, has_write, window_shares};

// Whether one of a domain's live windows that a peer may write shares a byte with the len bytes from place.
// Kept: all are asked, also behind one that does. A loop that ends early is not unrolled, and a post was a
// third slower by it.
fn windows_share(words: &[u64; 945], domain: usize, place: u64, len: u64) -> bool
    requires { domain < 4 }
    ensures { result ≡ windows_share (domain_at (rnic_at words.now) domain).windows place len }
{
    let mut shared = false;
    for i in 0..16 {
        if window_shares(load_window(words, domain, i), place, len) {
            shared = true;
        }
    }
    shared
}

// Whether a buffer that waits on the stream of a domain's slot does.
fn slot_shares(words: &[u64; 945], at: StreamPlace, place: u64, len: u64) -> bool
    ensures { result ≡ buffers_share (waiting (stream_of (rnic_at words.now) at.domain at.slot).sends.buffers) place len }
{
    let head = load_head(words, at.domain, at.slot);
    if head.count == 0 {
        return false;
    }
    let sends = load_sends(words, at.domain, at.slot);
    buffers_share(sends.buffers, place, len)
}

// Whether a buffer that waits on one of a domain's streams does.
fn streams_share(words: &[u64; 945], domain: usize, place: u64, len: u64) -> bool
    requires { domain < 4 }
    ensures { result ≡ streams_share (domain_at (rnic_at words.now) domain).streams place len }
{
    let mut shared = false;
    for i in 0..4 {
        let at = StreamPlace { domain, slot: i };
        if slot_shares(words, at, place, len) {
            shared = true;
        }
    }
    shared
}

// Whether some of the len bytes from place are a write window's or a waiting buffer's of a domain.
#[tactic(auto, unfolding(domain::specs::Sharing::domain_shares))]
pub(crate) fn domain_shares(words: &[u64; 945], domain: usize, place: u64, len: u64) -> bool
    requires { domain < 4 }
    ensures { result ≡ domain_shares (domain_at (rnic_at words.now) domain) place len }
{
    windows_share(words, domain, place, len) || streams_share(words, domain, place, len)
}

// Whether rights have the write right, and some of the len bytes from place are so.
pub(crate) fn write_shares(
    words: &[u64; 945],
    domain: usize,
    rights: u64,
    place: u64,
    len: u64,
) -> bool
    requires { domain < 4 }
    ensures { result ≡ both (writes rights) (domain_shares (domain_at (rnic_at words.now) domain) place len) }
{
    has_write(rights) && domain_shares(words, domain, place, len)
}
