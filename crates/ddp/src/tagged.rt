// Tagged segments: where a payload goes that names a window by its STag (rules 24 to 27).
ghost use Rattle.std.specs.Prelude.{◌≡◌};
ghost use Rattle.ddp.specs.Tagged.{tagged_of, tagged_in};
ghost use Rattle.memory.specs.Window.{spanned};

use crate::refusal::{BOUNDS_VIOLATION, INVALID_STAG, Refusal, STAG_NOT_ASSOCIATED, TO_WRAP};
use memory::window::{SpanFault, StagFault, Window, find_in, span_of};

// The place in the store of a payload's span in a window.
fn judge_span(w: Window, to: u64, len: u64) -> Result<Option<u64>, Refusal>
    ensures { result ≡ tagged_in (spanned w to len) }
{
    match span_of(w, to, len) {
        Ok(place) => Ok(Some(place)),
        Err(SpanFault::Wrap) => Err(TO_WRAP),
        Err(SpanFault::Outside) => Err(BOUNDS_VIOLATION),
    }
}

// Judges a tagged payload of len bytes by w, the window in the slot that its STag names: its place in the
// store. An empty one is not looked at, and goes nowhere.
#[tactic(auto, unfolding(crate::specs::Tagged::tagged_of))]
pub fn judge_tagged(
    w: Window,
    domain: u64,
    stag: u32,
    to: u64,
    len: u64,
) -> Result<Option<u64>, Refusal>
    ensures { result ≡ tagged_of w domain stag to len }
{
    if len == 0 {
        return Ok(None);
    }
    match find_in(w, domain, stag) {
        Ok(_) => judge_span(w, to, len),
        Err(StagFault::Foreign) => Err(STAG_NOT_ASSOCIATED),
        Err(StagFault::Missing) => Err(INVALID_STAG),
    }
}
