// Two writers on one spot: whether some bytes are already those of a live window that a peer may write, or of
// a buffer that waits. A domain asks it of its own windows and streams, and refuses with 19 where it is so.
//
// Read `share` first, which compares two spans of bytes, then `windows_share` and `streams_share`. The
// definitions are in specs/Sharing.antt.
#![tactic(auto)]

ghost use Rattle.std.specs.Prelude.{◌≡◌};
ghost use Rattle.overlap.specs.Sharing.{either, shares, writes, window_shares, windows_share, waiting, buffers_share, streams_share};

use memory::buffer::{Buffer, Buffers};
use memory::window::Window;
use rdmap::stream::Stream;

// Whether one of the two holds.
pub fn either_of(a: bool, b: bool) -> bool
    ensures { result ≡ either a b }
{
    a || b
}

// Whether the n bytes from a and the m bytes from b share a byte.
fn share(a: u64, n: u64, b: u64, m: u64) -> bool
    ensures { result ≡ shares a n b m }
{
    if a < b {
        return b - a < n;
    }
    if b < a {
        return a - b < m;
    }
    0 < n && 0 < m
}

// Whether rights have the write right among them.
pub fn has_write(rights: u64) -> bool
    ensures { result ≡ writes rights }
{
    rights % 2 == 1
}

// Whether a window is live, may be written, and shares a byte with the len bytes from place.
#[tactic(auto, unfolding(crate::specs::Sharing::window_shares))]
pub fn window_shares(w: Window, place: u64, len: u64) -> bool
    ensures { result ≡ window_shares w place len }
{
    w.live && w.rights % 2 == 1 && share(w.place as u64, w.len as u64, place, len)
}

// Whether a buffer shares a byte with the len bytes from place.
fn buffer_shares(b: Buffer, place: u64, len: u64) -> bool
    ensures { result ≡ shares b.start b.len place len }
{
    share(b.start as u64, b.len as u64, place, len)
}

// Whether one of the buffers that wait does.
pub fn buffers_share(b: Buffers, place: u64, len: u64) -> bool
    ensures { result ≡ buffers_share (waiting b) place len }
{
    let count = b.count as usize;
    b.entries
        .iter()
        .take(count)
        .any(|b| buffer_shares(*b, place, len))
}

// Whether one of the windows does.
pub fn windows_share(windows: [Window; 16], place: u64, len: u64) -> bool
    ensures { result ≡ windows_share windows place len }
{
    windows.iter().any(|w| window_shares(*w, place, len))
}

// Whether a buffer that waits on one of the streams does.
pub fn streams_share(streams: [Stream; 4], place: u64, len: u64) -> bool
    ensures { result ≡ streams_share streams place len }
{
    streams
        .iter()
        .any(|s| buffers_share(s.sends.buffers, place, len))
}
