// Where each group of the device's records stands in the block. specs/Layout.antt has the same numbers. A
// domain and a slot are taken by their remainders, so that every number names a place.
ghost use Rattle.std.specs.Prelude.{◌≡◌};
ghost use Rattle.block.specs.Layout.{domain_offset, window_offset, stream_offset, meter_offset};

// How many words hold a device: the length of the store, then four domains.
pub const BLOCK_WORDS: usize = 945;

const DOMAINS: usize = 1;

const DOMAIN_WORDS: usize = 236;

// In a domain: its part in one word, sixteen windows, four streams, its meter.
const WINDOWS: usize = 1;

pub const WINDOW_WORDS: usize = 3;

const STREAMS: usize = 49;

const STREAM_WORDS: usize = 46;

const METER: usize = 233;

pub const METER_WORDS: usize = 3;

// In a stream: its phase in one word, then the other groups.
pub const FRAMING: usize = 1;

pub const TERMINATES: usize = 2;

pub const SENDS: usize = 3;

pub const SENDS_WORDS: usize = 10;

pub const READS: usize = 13;

pub const READS_WORDS: usize = 33;

// Where a domain stands.
pub fn domain_offset(domain: usize) -> usize
    ensures { result ≡ domain_offset domain }
{
    DOMAINS + domain % 4 * DOMAIN_WORDS
}

// Where the window of a domain's slot stands.
pub fn window_offset(domain: usize, slot: usize) -> usize
    ensures { result ≡ window_offset domain slot }
{
    domain_offset(domain) + WINDOWS + slot % 16 * WINDOW_WORDS
}

// Where the stream of a domain's slot stands.
pub fn stream_offset(domain: usize, slot: usize) -> usize
    ensures { result ≡ stream_offset domain slot }
{
    domain_offset(domain) + STREAMS + slot % 4 * STREAM_WORDS
}

// Where the meter of a domain stands.
pub fn meter_offset(domain: usize) -> usize
    ensures { result ≡ meter_offset domain }
{
    domain_offset(domain) + METER
}
