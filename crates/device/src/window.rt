// A window dropped: by a call, and by a Send that invalidates it.
ghost use Rattle.std.specs.Prelude.{◌≡◌};
ghost use Rattle.memory.specs.Window.{dropped_in};
ghost use Rattle.rnic.specs.Rnic.{rnic_dropped};
ghost use Rattle.block.specs.Device.{rnic_at};
ghost use Rattle.slots.specs.Window.{window_of, with_window_of};

use block::window::{load_window, store_window};
use memory::window::drop_in;
use slots::place::WindowPlace;
use wire::refusal::LocalRefusal;

// Drops the window of a domain's slot: it is dead, and its key is kept.
pub(crate) fn drop_slot(words: &mut [u64; 945], at: WindowPlace) -> Result<(), LocalRefusal>
    ensures { (result ≡ (dropped_in (window_of (rnic_at words.old) at.domain at.slot)).0) × (rnic_at words.new ≡ with_window_of (rnic_at words.old) at.domain at.slot (dropped_in (window_of (rnic_at words.old) at.domain at.slot)).1) }
{
    let w = load_window(words, at.domain, at.slot);
    let (outcome, window) = drop_in(w);
    store_window(words, at.domain, at.slot, window);
    outcome
}

// Drops a window.
#[tactic(auto, unfolding(rnic::specs::Rnic::rnic_dropped, domain::specs::Domain::domain_dropped, memory::specs::Window::dropped))]
pub fn drop_window(words: &mut [u64; 945], window: u64) -> Result<(), LocalRefusal>
    ensures { (result ≡ (rnic_dropped (rnic_at words.old) window).0) × (rnic_at words.new ≡ (rnic_dropped (rnic_at words.old) window).1) }
{
    let at = WindowPlace::of(window).ok_or(LocalRefusal::OutOfRange)?;
    drop_slot(words, at)
}
