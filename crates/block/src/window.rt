// The windows of a domain, in three words each.
ghost use Rattle.std.specs.Prelude.{◌≡◌, length};
ghost use Rattle.block.specs.Layout.{block_words};
ghost use Rattle.block.specs.Words.{window_in, access_word, window_words};
ghost use Rattle.block.specs.Device.{loaded_window, stored_window};

use crate::layout::{WINDOW_WORDS, window_offset};
use crate::pack::{flag, lower, pair, upper};
use memory::window::Window;
use wire::copy::copy;

// The window in its words.
fn decode(g: &[u64]) -> Window
    requires { length g.now ≡ 3 }
    ensures { result ≡ window_in g.now }
{
    Window {
        live: g[0] % 2 == 1,
        key: (g[0] / 256 % 256) as u8,
        rights: (g[0] / 65536 % 256) as u8,
        place: lower(g[1]),
        len: upper(g[1]),
        base: g[2],
    }
}

// Whether the window in its words is live.
fn decode_live(g: &[u64]) -> bool
    requires { length g.now ≡ 3 }
    ensures { result ≡ (window_in g.now).live }
{
    g[0] % 2 == 1
}

// The word that says whether a window is live, with its key and its rights.
fn access_word(w: Window) -> u64
    ensures { result ≡ access_word w }
{
    flag(w.live) + w.key as u64 * 256 + w.rights as u64 * 65536
}

// The words of a window, which say the window.
fn encode(w: Window) -> [u64; 3]
    ensures { (result ≡ window_words w) × (window_in (window_words w) ≡ w) }
{
    [access_word(w), pair(w.place, w.len), w.base]
}

// Loads the window of a domain's slot.
pub fn load_window(words: &[u64; 945], domain: usize, slot: usize) -> Window
    ensures { result ≡ loaded_window words.now domain slot }
{
    let all = &words[..];
    let at = window_offset(domain, slot);
    let end = at + WINDOW_WORDS;
    decode(&all[at..end])
}

// Loads whether the window of a domain's slot is live.
pub fn load_live(words: &[u64; 945], domain: usize, slot: usize) -> bool
    ensures { result ≡ (loaded_window words.now domain slot).live }
{
    let all = &words[..];
    let at = window_offset(domain, slot);
    let end = at + WINDOW_WORDS;
    decode_live(&all[at..end])
}

// Stores the window of a domain's slot.
pub fn store_window(words: &mut [u64; 945], domain: usize, slot: usize, w: Window)
    ensures { (words.new ≡ stored_window words.old domain slot w) × (loaded_window words.new domain slot ≡ w) × (length words.old ≡ block_words) }
{
    let group = encode(w);
    copy(words, window_offset(domain, slot), &group);
}
