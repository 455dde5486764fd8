// A window registered, and the questions about a domain's windows.
ghost use Rattle.std.specs.Prelude.{◌≡◌, ◌<◌};
ghost use Rattle.memory.specs.Window.{live_count, lowest_free};
ghost use Rattle.memory.specs.Marks.{live_marks};
ghost use Rattle.domain.specs.Domain.{domain_registered};
ghost use Rattle.rnic.specs.Rnic.{domain_at, with_domain, rnic_registered, rnic_live, rnic_free};
ghost use Rattle.block.specs.Device.{rnic_at};

use crate::place::WindowPlace;
use crate::sharing::write_shares;
use block::device::load_part;
use block::window::{load_live, load_window, store_window};
use memory::marks::{count, lowest_clear, push};
use memory::window::register_in;
use wire::refusal::LocalRefusal;

// Registers the window of a domain's slot. Whether it shares a byte with another writer is asked last.
fn register_slot(
    words: &mut [u64; 945],
    at: WindowPlace,
    key: u64,
    base: u64,
    len: u64,
    place: u64,
    rights: u64,
) -> Result<(), LocalRefusal>
    ensures { (result ≡ (domain_registered (domain_at (rnic_at words.old) at.domain) at.slot key base len place rights).0) × (rnic_at words.new ≡ with_domain (rnic_at words.old) at.domain (domain_registered (domain_at (rnic_at words.old) at.domain) at.slot key base len place rights).1) }
{
    let w = load_window(words, at.domain, at.slot);
    let part = load_part(words, at.domain);
    let (outcome, window) = register_in(w, part, key, base, len, place, rights);
    outcome?;
    if write_shares(words, at.domain, rights, place, len) {
        return Err(LocalRefusal::SharedByte);
    }
    store_window(words, at.domain, at.slot, window);
    Ok(())
}

// Registers a window.
#[tactic(auto, unfolding(rnic::specs::Rnic::rnic_registered))]
pub fn register(
    words: &mut [u64; 945],
    window: u64,
    key: u64,
    base: u64,
    len: u64,
    place: u64,
    rights: u64,
) -> Result<(), LocalRefusal>
    ensures { (result ≡ (rnic_registered (rnic_at words.old) window key base len place rights).0) × (rnic_at words.new ≡ (rnic_registered (rnic_at words.old) window key base len place rights).1) }
{
    let at = WindowPlace::of(window).ok_or(LocalRefusal::OutOfRange)?;
    register_slot(words, at, key, base, len, place, rights)
}

// The live marks of a domain's windows, bit i for slot i: the last slot's goes in first.
fn load_marks(words: &[u64; 945], domain: usize) -> u16
    requires { domain < 4 }
    ensures { result ≡ live_marks (domain_at (rnic_at words.now) domain).windows }
{
    let mut marks = 0;
    for i in 0..16 {
        marks = push(marks, load_live(words, domain, 15 - i));
    }
    marks
}

// How many windows of a domain are live.
fn count_live(words: &[u64; 945], domain: usize) -> u32
    requires { domain < 4 }
    ensures { result ≡ live_count (domain_at (rnic_at words.now) domain).windows }
{
    count(load_marks(words, domain))
}

// How many windows of a domain are live; a number over 3 is refused.
#[tactic(auto, unfolding(rnic::specs::Rnic::rnic_live))]
pub fn live_count(words: &[u64; 945], number: u64) -> Result<u32, LocalRefusal>
    ensures { result ≡ rnic_live (rnic_at words.now) number }
{
    if number <= 3 {
        return Ok(count_live(words, number as usize));
    }
    Err(LocalRefusal::OutOfRange)
}

// The lowest slot of a domain whose window is dead, 16 where none is.
fn find_free(words: &[u64; 945], domain: usize) -> u32
    requires { domain < 4 }
    ensures { result ≡ lowest_free (domain_at (rnic_at words.now) domain).windows }
{
    lowest_clear(load_marks(words, domain))
}

// Which of a domain's sixteen slots is the lowest free, 16 if none; a number over 3 is refused.
#[tactic(auto, unfolding(rnic::specs::Rnic::rnic_free))]
pub fn lowest_free(words: &[u64; 945], number: u64) -> Result<u32, LocalRefusal>
    ensures { result ≡ rnic_free (rnic_at words.now) number }
{
    if number <= 3 {
        return Ok(find_free(words, number as usize));
    }
    Err(LocalRefusal::OutOfRange)
}
