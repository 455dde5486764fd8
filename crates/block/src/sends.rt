// Queue 0 of a stream: its sends, in 10 words.
ghost use Rattle.std.specs.Prelude.{◌≡◌, length};
ghost use Rattle.block.specs.Layout.{block_words};
ghost use Rattle.block.specs.Words.{buffer_in, buffer_word};
ghost use Rattle.block.specs.Queue.{buffers_in, sends_in, sends_words, head_of};
ghost use Rattle.block.specs.Stream.{loaded_sends, stored_sends};

use crate::layout::{SENDS, SENDS_WORDS, stream_offset};
use crate::pack::{lower, pair, upper};
use memory::buffer::{Buffer, Buffers};
use rdmap::sends::Sends;
use wire::copy::copy;

// What the next segment of a Send asks of the sends: the next MSN, the opcode of a Send under way and how
// many of its bytes are taken, how many buffers wait, and the one that is filled.
#[derive(Clone, Copy)]
pub struct Head {
    pub msn: u32,
    pub opcode: u8,
    pub taken: u32,
    pub count: u32,
    pub buffer: Buffer,
}

// The buffer in a word.
fn buffer_in(x: u64) -> Buffer
    ensures { result ≡ buffer_in x }
{
    Buffer {
        start: lower(x),
        len: upper(x),
    }
}

// The word of a buffer, which says the buffer.
fn buffer_word(b: Buffer) -> u64
    ensures { (result ≡ buffer_word b) × (buffer_in (buffer_word b) ≡ b) }
{
    pair(b.start, b.len)
}

// The buffers in the words of sends.
fn buffers_in(g: &[u64]) -> Buffers
    requires { length g.now ≡ 10 }
    ensures { result ≡ buffers_in g.now }
{
    Buffers {
        count: upper(g[1]),
        entries: [
            buffer_in(g[2]),
            buffer_in(g[3]),
            buffer_in(g[4]),
            buffer_in(g[5]),
            buffer_in(g[6]),
            buffer_in(g[7]),
            buffer_in(g[8]),
            buffer_in(g[9]),
        ],
    }
}

// The sends in their words.
fn decode(g: &[u64]) -> Sends
    requires { length g.now ≡ 10 }
    ensures { result ≡ sends_in g.now }
{
    Sends {
        msn: lower(g[0]),
        opcode: (g[0] / 4294967296 % 256) as u8,
        taken: lower(g[1]),
        buffers: buffers_in(g),
    }
}

// The head of the sends in their words.
fn decode_head(g: &[u64]) -> Head
    requires { length g.now ≡ 10 }
    ensures { result ≡ head_of (sends_in g.now) }
{
    Head {
        msn: lower(g[0]),
        opcode: (g[0] / 4294967296 % 256) as u8,
        taken: lower(g[1]),
        count: upper(g[1]),
        buffer: buffer_in(g[2]),
    }
}

// The words of sends, which say the sends.
fn encode(s: Sends) -> [u64; 10]
    ensures { (result ≡ sends_words s) × (sends_in (sends_words s) ≡ s) }
{
    let b = s.buffers;
    let e = b.entries;
    [
        pair(s.msn, s.opcode as u32),
        pair(s.taken, b.count),
        buffer_word(e[0]),
        buffer_word(e[1]),
        buffer_word(e[2]),
        buffer_word(e[3]),
        buffer_word(e[4]),
        buffer_word(e[5]),
        buffer_word(e[6]),
        buffer_word(e[7]),
    ]
}

// Loads the sends of the stream of a domain's slot.
pub fn load_sends(words: &[u64; 945], domain: usize, slot: usize) -> Sends
    ensures { result ≡ loaded_sends words.now domain slot }
{
    let all = &words[..];
    let at = stream_offset(domain, slot) + SENDS;
    let end = at + SENDS_WORDS;
    decode(&all[at..end])
}

// Loads the head of the sends of the stream of a domain's slot.
pub fn load_head(words: &[u64; 945], domain: usize, slot: usize) -> Head
    ensures { result ≡ head_of (loaded_sends words.now domain slot) }
{
    let all = &words[..];
    let at = stream_offset(domain, slot) + SENDS;
    let end = at + SENDS_WORDS;
    decode_head(&all[at..end])
}

// Stores the sends of the stream of a domain's slot.
pub fn store_sends(words: &mut [u64; 945], domain: usize, slot: usize, s: Sends)
    ensures { (words.new ≡ stored_sends words.old domain slot s) × (loaded_sends words.new domain slot ≡ s) × (length words.old ≡ block_words) }
{
    let group = encode(s);
    copy(words, stream_offset(domain, slot) + SENDS, &group);
}
