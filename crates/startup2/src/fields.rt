// The four bytes of a side's terms (RFC 6581, section 9): A and B with the IRD, C and D with the ORD.
ghost use Rattle.std.specs.Prelude.{◌≡◌, true, ◌+◌, ◌≤◌, ◌<◌, length};
ghost use Rattle.wire.specs.Wire.{put};
ghost use Rattle.startup2.specs.Terms.{terms_fit, kinds_of, first_half, second_half, terms_of, halves_terms, terms_at};

use crate::Terms;
use wire::number::{get_be16, put_be16};

// The highest number of 14 bits.
pub const MAX_DEPTH: u64 = 0x3FFF;

// All three kinds.
const ALL_KINDS: u64 = 7;

// One more than the highest number of 14 bits: the lower of the two flags before a depth.
const FLAG: usize = 0x4000;

// The higher of the two, A before the IRD.
const FLAG_A: usize = 0x8000;

// Whether the fields can hold the numbers.
pub fn terms_fit(terms: Terms) -> bool
    ensures { result ≡ terms_fit terms }
{
    terms.ird <= MAX_DEPTH && terms.ord <= MAX_DEPTH && terms.kinds <= ALL_KINDS
}

// The kinds that are said: none where the connection is not peer to peer.
pub fn kinds_of(terms: Terms) -> u64
    ensures { result ≡ kinds_of terms }
{
    if terms.peer { terms.kinds } else { 0 }
}

// A, B and the IRD as a number of 16 bits.
fn first_half(terms: Terms) -> usize
    requires { terms_fit terms ≡ true }
    ensures { (result ≡ first_half terms) × (result < 65536) }
{
    let send = (kinds_of(terms) / 4) as usize;
    let a = if terms.peer { FLAG_A } else { 0 };
    a + send * FLAG + terms.ird as usize
}

// C, D and the ORD as a number of 16 bits.
fn second_half(terms: Terms) -> usize
    requires { terms_fit terms ≡ true }
    ensures { (result ≡ second_half terms) × (result < 65536) }
{
    let others = (kinds_of(terms) % 4) as usize;
    others * FLAG + terms.ord as usize
}

// Writes the terms into the four bytes from at.
#[tactic(auto, using(crate::proofs::Puts::terms_put))]
pub(crate) fn put_terms(terms: Terms, out: &mut [u8], at: usize)
    requires { (terms_fit terms ≡ true) × (at + 4 ≤ length out.old) }
    ensures { out.new ≡ put out.old at (terms_of terms) }
{
    put_be16(out, at, first_half(terms));
    put_be16(out, at + 2, second_half(terms));
}

// The terms of the two halves, each of 16 bits.
fn halves_terms(first: usize, second: usize) -> Terms
    ensures { result ≡ halves_terms first second }
{
    let ird = (first % FLAG) as u64;
    let ord = (second % FLAG) as u64;
    let peer = FLAG_A <= first;
    let kinds = if peer {
        (first / FLAG % 2 * 4 + second / FLAG) as u64
    } else {
        0
    };
    Terms {
        peer,
        ird,
        ord,
        kinds,
    }
}

// The terms in the four bytes from at.
#[tactic(auto, unfolding(crate::specs::Terms::terms_at))]
pub(crate) fn terms_at(bytes: &[u8], at: usize) -> Terms
    requires { at + 4 ≤ length bytes.now }
    ensures { result ≡ terms_at bytes.now at }
{
    halves_terms(get_be16(bytes, at), get_be16(bytes, at + 2))
}
