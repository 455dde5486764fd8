// The commands that show and set bytes of the store. Neither is a call of the device.
ghost use Rattle.std.specs.Prelude.{◌≡◌, ◌+◌, leb, length};
ghost use Rattle.wire.specs.Wire.{pick, put};
ghost use Rattle.command.specs.Args.{words_of};
ghost use Rattle.request.specs.Request.{ask_fill, store_after};

use command::answer::{bad, then_hex};
use command::args::Words;
use script::hex::decode;
use script::text::Text;

// `bytes START LENGTH`: shows that many bytes from START on.
pub fn bytes<const N: usize>(numbers: Option<[u64; 9]>, store: &[u8], text: &mut Text<N>) {
    if let Some(values) = numbers {
        let start = values[0] as usize;
        let size = values[1] as usize;
        if start <= store.len() && size <= store.len() - start {
            let end = start + size;
            text.put(b"bytes");
            return then_hex(&store[start..end], text);
        }
    }
    bad(text);
}

// Puts bytes into the store from a place on, if they fit.
fn put_bytes<const N: usize>(bytes: &[u8], at: usize, store: &mut [u8], text: &mut Text<N>)
    ensures { store.new ≡ pick (leb (at + length bytes.now) (length store.old)) (put store.old at bytes.now) store.old }
{
    if store.len() < at {
        return bad(text);
    }
    if store.len() - at < bytes.len() {
        return bad(text);
    }
    wire::copy::copy(store, at, bytes);
    text.put(b"done");
}

// `fill START HEX`: puts bytes into the store from START on.
#[tactic(auto, unfolding(crate::specs::Request::ask_fill))]
pub fn fill<const N: usize>(words: &Words, bytes: &mut [u8], store: &mut [u8], text: &mut Text<N>)
    ensures { store.new ≡ store_after (ask_fill (length bytes.old) (length store.old) (words_of words.now)) store.old }
{
    if words.len() != 3 {
        return bad(text);
    }
    let Some(start) = words.number(1) else {
        return bad(text);
    };
    let Some(size) = decode(words.word(2), bytes) else {
        return bad(text);
    };
    put_bytes(&bytes[..size], start as usize, store, text)
}
