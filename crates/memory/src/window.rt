// Windows: the tagged buffers of a domain, sixteen by value, one entry changed at a time. A call answers a pair: what it
// says, and the window or the windows after it.
ghost use Rattle.std.specs.Prelude.{◌≡◌, ◌<◌, ◌≤◌, length};
ghost use Rattle.memory.specs.Window.{in_range, window_fits, keeping, refusing, entering, registered_in, registered, dropped_in, dropped, live_count, lowest_free, named, slot_named, found_in, wraps, spanned};
ghost use Rattle.memory.specs.Marks.{live_marks};

use crate::marks::{count, lowest_clear, push};
use crate::part::{Part, inside};
use wire::refusal::LocalRefusal;

// One window. A dead one keeps its last key (0: it never had one), and zeros beside.
#[repr(C)]
#[derive(Clone, Copy)]
pub struct Window {
    pub live: bool,
    pub key: u8,
    pub rights: u8,
    pub place: u32,
    pub len: u32,
    pub base: u64,
}

// Why an STag names no window of a domain: it is another domain's, or no live window has it.
#[derive(Clone, Copy, Debug, PartialEq, Eq)]
pub enum StagFault {
    Foreign,
    Missing,
}

// Why some bytes from a tagged offset have no place: they go past the end of all offsets, or are not in the window.
#[derive(Clone, Copy, Debug, PartialEq, Eq)]
pub enum SpanFault {
    Wrap,
    Outside,
}

// Whether key and rights are in their ranges.
#[tactic(auto, unfolding(crate::specs::Window::in_range))]
fn in_range(key: u64, rights: u64) -> bool
    ensures { result ≡ in_range key rights }
{
    (1 <= key && key <= 255) && (1 <= rights && rights <= 3)
}

// Whether a window lies in the part, and ends at an offset that there is.
#[tactic(auto, unfolding(crate::specs::Window::window_fits))]
fn window_fits(part: Part, place: u64, base: u64, len: u64) -> bool
    ensures { result ≡ window_fits part place base len }
{
    inside(part, place, len) && len <= u64::MAX - base
}

// A refusal: the window is as it was.
fn kept(w: Window, refusal: LocalRefusal) -> (Result<(), LocalRefusal>, Window)
    ensures { result ≡ keeping w refusal }
{
    (Err(refusal), w)
}

// A refusal: the windows are as they were.
fn refused(windows: [Window; 16], refusal: LocalRefusal) -> (Result<(), LocalRefusal>, [Window; 16])
    ensures { result ≡ refusing windows refusal }
{
    (Err(refusal), windows)
}

// The windows with what was done in one of them put in its slot.
fn entered(
    mut windows: [Window; 16],
    slot: usize,
    done: (Result<(), LocalRefusal>, Window),
) -> (Result<(), LocalRefusal>, [Window; 16])
    requires { slot < 16 }
    ensures { result ≡ entering windows slot done }
{
    let (outcome, window) = done;
    windows[slot] = window;
    (outcome, windows)
}

// Registers the window w.
#[tactic(auto, using(crate::proofs::Laws::key_bound, crate::proofs::Laws::rights_bound, crate::proofs::Laws::window_bound), unfolding(crate::specs::Window::registered_in))]
pub fn register_in(
    w: Window,
    part: Part,
    key: u64,
    base: u64,
    len: u64,
    place: u64,
    rights: u64,
) -> (Result<(), LocalRefusal>, Window)
    ensures { result ≡ registered_in w part key base len place rights }
{
    if !in_range(key, rights) {
        return kept(w, LocalRefusal::OutOfRange);
    }
    if w.live {
        return kept(w, LocalRefusal::WindowLive);
    }
    if key == u64::from(w.key) {
        return kept(w, LocalRefusal::KeyAgain);
    }
    if !window_fits(part, place, base, len) {
        return kept(w, LocalRefusal::BadPlace);
    }
    (
        Ok(()),
        Window {
            live: true,
            key: key as u8,
            rights: rights as u8,
            place: place as u32,
            len: len as u32,
            base,
        },
    )
}

// Registers the window of a slot.
#[tactic(auto, unfolding(crate::specs::Window::registered))]
pub fn register(
    windows: [Window; 16],
    part: Part,
    slot: u64,
    key: u64,
    base: u64,
    len: u64,
    place: u64,
    rights: u64,
) -> (Result<(), LocalRefusal>, [Window; 16])
    ensures { result ≡ registered windows part slot key base len place rights }
{
    if 15 < slot {
        return refused(windows, LocalRefusal::OutOfRange);
    }
    let i = slot as usize;
    let done = register_in(windows[i], part, key, base, len, place, rights);
    entered(windows, i, done)
}

// Drops the window w: it is dead, and its key is kept.
#[tactic(auto, unfolding(crate::specs::Window::dropped_in))]
pub fn drop_in(w: Window) -> (Result<(), LocalRefusal>, Window)
    ensures { result ≡ dropped_in w }
{
    if !w.live {
        return kept(w, LocalRefusal::WindowNotLive);
    }
    (
        Ok(()),
        Window {
            live: false,
            key: w.key,
            rights: 0,
            place: 0,
            len: 0,
            base: 0,
        },
    )
}

// Drops the window of a slot.
#[tactic(auto, unfolding(crate::specs::Window::dropped))]
pub fn drop_window(windows: [Window; 16], slot: u64) -> (Result<(), LocalRefusal>, [Window; 16])
    ensures { result ≡ dropped windows slot }
{
    if 15 < slot {
        return refused(windows, LocalRefusal::OutOfRange);
    }
    let i = slot as usize;
    let done = drop_in(windows[i]);
    entered(windows, i, done)
}

// The live marks of the windows, bit i for slot i.
fn gather(windows: &[Window]) -> u16
    requires { length windows.now ≤ 16 }
    ensures { result ≡ live_marks windows.now }
{
    windows.iter().rev().fold(0, |marks, w| push(marks, w.live))
}

// How many windows are live.
#[tactic(auto, using(crate::proofs::LiveMarks::ones_live))]
pub fn live_count(windows: [Window; 16]) -> u32
    ensures { result ≡ live_count windows }
{
    count(gather(&windows))
}

// The lowest slot whose window is dead, 16 where none is.
#[tactic(auto, using(crate::proofs::LiveMarks::clear_free))]
pub fn lowest_free(windows: [Window; 16]) -> u32
    ensures { result ≡ lowest_free windows }
{
    lowest_clear(gather(&windows))
}

// Whether a window is live and has the key.
#[tactic(auto, unfolding(crate::specs::Window::named))]
fn is_named(w: Window, key: u32) -> bool
    ensures { result ≡ named w key }
{
    let own = u32::from(w.key);
    w.live && key == own
}

// The slot of the window that an STag names, in its domain.
pub fn slot_named(stag: u32) -> usize
    ensures { result ≡ slot_named stag }
{
    (stag / 256 % 16) as usize
}

// The slot of the window that an STag names for a domain, whose window in that slot is w. Whose it is
// comes before whether it is live.
#[tactic(auto, unfolding(crate::specs::Window::found_in))]
pub fn find_in(w: Window, domain: u64, stag: u32) -> Result<usize, StagFault>
    ensures { result ≡ found_in w domain stag }
{
    let number = stag / 256;
    if 63 < number {
        return Err(StagFault::Missing);
    }
    let ours = u64::from(number / 16) == domain;
    let live = is_named(w, stag % 256);
    if !ours {
        return Err(StagFault::Foreign);
    }
    if !live {
        return Err(StagFault::Missing);
    }
    Ok(slot_named(stag))
}

// Whether to + len is above 2^64.
#[tactic(auto, unfolding(crate::specs::Window::wraps))]
pub fn wraps_around(to: u64, len: u64) -> bool
    ensures { result ≡ wraps to len }
{
    len != 0 && u64::MAX - to < len - 1
}

// The place of the store where the len bytes from the tagged offset to lie.
#[tactic(auto, unfolding(crate::specs::Window::spanned))]
pub fn span_of(w: Window, to: u64, len: u64) -> Result<u64, SpanFault>
    ensures { result ≡ spanned w to len }
{
    if wraps_around(to, len) {
        return Err(SpanFault::Wrap);
    }
    if to < w.base {
        return Err(SpanFault::Outside);
    }
    let offset = to - w.base;
    let size = u64::from(w.len);
    if size < offset || size - offset < len {
        return Err(SpanFault::Outside);
    }
    Ok(u64::from(w.place) + offset)
}
