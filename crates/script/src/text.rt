// A text that is put together from its front, in a room of its own: what does not fit is left out.
ghost use Rattle.std.specs.Prelude.{◌≡◌, ◌+◌, ◌%◌, ◌≤◌, ◌<◌, ◌==◌, length, drop, [], ◌∷◌, ◌++◌};
ghost use Rattle.script.specs.Hex.{digit, hex_text, upper_byte};
ghost use Rattle.script.specs.Number.{decimal};
ghost use Rattle.script.specs.Text.{appended};

use std::fmt;
use std::marker::Model;
use wire::copy::copy;

// At most N bytes. A clause sees them as a list.
// Kept: an array and a length. Over an `ArrayVec`, a program that makes the text of `replay` (2 MB) took 10.5 MB of stack in a build that
// is not optimized, since `ArrayVec::new` copies its array; so it takes 4.2 MB, and the programs run in 8 MB.
#[derive(Drop)]
pub struct Text<const N: usize> {
    bytes: [u8; N],
    len: usize,
}

impl<const N: usize> Model for Text<N> {
    ghost use Rattle.std.specs.Prelude.{ℕ, ◌≤◌, List, take};

    ghost Value = { List ℕ };

    ghost view = { λ t. take t.len t.bytes };

    ghost invariant = { λ t. t.len ≤ N };
}

impl<const N: usize> Text<N> {
    // A text of no bytes.
    pub fn new() -> Self
        ensures { result ≡ [] }
    {
        Text {
            bytes: [0; N],
            len: 0,
        }
    }

    // The bytes.
    pub fn as_slice(&self) -> &[u8]
        ensures bytes { result.now ≡ self.now }
        ensures within { length result.now ≤ N }
    {
        &self.bytes[..self.len]
    }

    // Whether there is no byte.
    pub fn is_empty(&self) -> bool
        ensures { result ≡ (length self.now == 0) }
    {
        self.len == 0
    }

    // How many more bytes fit.
    pub fn room(&self) -> usize
        ensures { result + length self.now ≡ N }
    {
        N - self.len
    }

    // Takes all bytes out.
    pub fn clear(&mut self)
        ensures { self.new ≡ [] }
    {
        self.len = 0;
    }

    // Appends a word.
    pub fn put(&mut self, w: &[u8])
        ensures { self.new ≡ appended N self.old w.now }
    {
        if w.len() <= N - self.len {
            copy(&mut self.bytes, self.len, w);
            self.len += w.len();
        }
    }

    // Appends the digits of a number.
    pub fn put_number(&mut self, v: u64)
        ensures { self.new ≡ appended N self.old (decimal v) }
    {
        let mut digits = [0u8; 20];
        let start = write_digits(v, &mut digits);
        self.put(&digits[start..]);
    }

    // Appends bytes as hex of lower case, `-` for none.
    pub fn put_hex(&mut self, bytes: &[u8])
        ensures { self.new ≡ appended N self.old (hex_text bytes.now) }
    {
        if bytes.is_empty() {
            self.put(b"-");
            return;
        }
        if self.room() / 2 < bytes.len() {
            return;
        }
        for &b in bytes {
            self.put(&[digit_of(b / 16, b'a'), digit_of(b % 16, b'a')]);
        }
    }

    // Appends a byte as two digits of upper case.
    pub fn put_byte_hex(&mut self, v: u8)
        ensures { self.new ≡ appended N self.old (upper_byte v) }
    {
        self.put(&[digit_of(v / 16, b'A'), digit_of(v % 16, b'A')]);
    }
}

// `write!` appends each piece as `put` does, and never fails.
impl<const N: usize> fmt::Write for Text<N> {
    ghost write_str_gives = { λ s bytes t. t ≡ appended N s bytes };

    fn write_str(&mut self, s: &str) -> fmt::Result {
        self.put(s.as_bytes());
        Ok(())
    }
}

// The digit for a number below 16, where `a` is the letter for ten.
fn digit_of(n: u8, a: u8) -> u8
    requires { (n < 16) × (a < 128) }
    ensures { result ≡ digit a n }
{
    if n < 10 { 48 + n } else { a + (n - 10) }
}

// The last digit of v.
fn last_digit(v: u64) -> u8
    ensures { result ≡ 48 + v % 10 }
{
    (48 + v % 10) as u8
}

// Writes the digits of v at the end of twenty bytes, and answers the place of the first.
// Kept: the must-fail edit `leading_zero` changes this loop.
fn write_digits(v: u64, digits: &mut [u8; 20]) -> usize
    requires { length digits.old ≡ 20 }
    ensures { (result ≤ 20) × (length digits.new ≡ 20) × (drop result digits.new ≡ decimal v) }
{
    let mut left = v;
    let mut k = 20;
    while left >= 10 {
        k -= 1;
        digits[k] = last_digit(left);
        left = left / 10;
    }
    k -= 1;
    digits[k] = last_digit(left);
    k
}
