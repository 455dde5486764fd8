// Queue 1 of a stream: its reads, in 33 words.
ghost use Rattle.std.specs.Prelude.{◌≡◌, [], ◌+◌, ◌≤◌, length};
ghost use Rattle.block.specs.Layout.{block_words};
ghost use Rattle.block.specs.Queue.{
  request_in,
  requests_in,
  stags_word,
  request_words,
  four_words,
  reads_in,
  tally_of,
};
ghost use Rattle.block.specs.Stream.{loaded_reads, stored_reads};

use crate::layout::{READS, READS_WORDS, stream_offset};
use crate::pack::{lower, pair, upper};
use crate::store::store_word;
use rdmap::read::{ReadRequest, Reads};
use wire::copy::copy;

// The next MSN of the reads, and how many wait.
#[derive(Drop)]
pub struct Tally {
    pub msn: u32,
    pub count: u32,
}

// The request in the four words from at.
fn request_in(g: &[u64], at: usize) -> ReadRequest
    requires { at + 4 ≤ length g.now }
    ensures { result ≡ request_in g.now at }
{
    ReadRequest {
        sink_stag: lower(g[at]),
        sink_to: g[at + 2],
        size: lower(g[at + 1]),
        source_stag: upper(g[at]),
        source_to: g[at + 3],
    }
}

// The eight requests in the words of reads.
fn requests_in(g: &[u64]) -> [ReadRequest; 8]
    requires { length g.now ≡ 33 }
    ensures { result ≡ requests_in g.now }
{
    [
        request_in(g, 1),
        request_in(g, 5),
        request_in(g, 9),
        request_in(g, 13),
        request_in(g, 17),
        request_in(g, 21),
        request_in(g, 25),
        request_in(g, 29),
    ]
}

// The reads in their words.
fn decode(g: &[u64]) -> Reads
    requires { length g.now ≡ 33 }
    ensures { result ≡ reads_in g.now }
{
    Reads {
        msn: lower(g[0]),
        count: upper(g[0]),
        entries: requests_in(g),
    }
}

// The tally of the reads in their words.
fn decode_tally(g: &[u64]) -> Tally
    requires { length g.now ≡ 33 }
    ensures { result ≡ tally_of (reads_in g.now) }
{
    Tally {
        msn: lower(g[0]),
        count: upper(g[0]),
    }
}

// The word of a request's two STags; a request's four words say the request.
fn stags_word(q: ReadRequest) -> u64
    ensures { (result ≡ stags_word q) × (request_in (request_words q []) 0 ≡ q) }
{
    pair(q.sink_stag, q.source_stag)
}

// The words of four requests, which say the requests.
fn four_words(a: ReadRequest, b: ReadRequest, c: ReadRequest, d: ReadRequest) -> [u64; 16]
    ensures { (result ≡ four_words a b c d []) × (request_in (request_words a []) 0 ≡ a) × (request_in (request_words b []) 0 ≡ b) × (request_in (request_words c []) 0 ≡ c) × (request_in (request_words d []) 0 ≡ d) }
{
    [
        stags_word(a),
        a.size as u64,
        a.sink_to,
        a.source_to,
        stags_word(b),
        b.size as u64,
        b.sink_to,
        b.source_to,
        stags_word(c),
        c.size as u64,
        c.sink_to,
        c.source_to,
        stags_word(d),
        d.size as u64,
        d.sink_to,
        d.source_to,
    ]
}

// Loads the reads of the stream of a domain's slot.
pub fn load_reads(words: &[u64; 945], domain: usize, slot: usize) -> Reads
    ensures { result ≡ loaded_reads words.now domain slot }
{
    let all = &words[..];
    let at = stream_offset(domain, slot) + READS;
    let end = at + READS_WORDS;
    decode(&all[at..end])
}

// Loads the tally of the reads of the stream of a domain's slot.
pub fn load_tally(words: &[u64; 945], domain: usize, slot: usize) -> Tally
    ensures { result ≡ tally_of (loaded_reads words.now domain slot) }
{
    let all = &words[..];
    let at = stream_offset(domain, slot) + READS;
    let end = at + READS_WORDS;
    decode_tally(&all[at..end])
}

// Stores the reads of the stream of a domain's slot.
pub fn store_reads(words: &mut [u64; 945], domain: usize, slot: usize, r: Reads)
    ensures { (words.new ≡ stored_reads words.old domain slot r) × (loaded_reads words.new domain slot ≡ r) × (length words.old ≡ block_words) }
{
    let at = stream_offset(domain, slot) + READS;
    let e = r.entries;
    let first = four_words(e[0], e[1], e[2], e[3]);
    let last = four_words(e[4], e[5], e[6], e[7]);
    store_word(words, at, pair(r.msn, r.count));
    copy(words, at + 1, &first);
    copy(words, at + 17, &last);
}
