// Words of hex digits, read as bytes.
ghost use Rattle.std.specs.Prelude.{◌≡◌, ℕ, ◌+◌, ◌≤◌, ◌<◌, true, length, get_or, take, IfSome};
ghost use Rattle.std.proofs.Math.Seq.{paste};
ghost use Rattle.script.specs.Hex.{nibble, is_hex_digit, is_hex, hex_length_of, pairs, decoded_of, decoded_in};
ghost use Rattle.script.specs.Number.{all};

// Whether every byte is a hex digit.
fn all_hex(w: &[u8]) -> bool
    ensures { result ≡ all is_hex_digit w.now }
{
    w.iter().all(|b| b.is_ascii_hexdigit())
}

// Whether a word is an even count of hex digits, and not none.
#[tactic(auto, unfolding(crate::specs::Hex::is_hex))]
fn is_hex(w: &[u8]) -> bool
    ensures { result ≡ is_hex w.now }
{
    !w.is_empty() && w.len() % 2 == 0 && all_hex(w)
}

// How many bytes a word stands for: none for `-`, half as many as an even count of hex digits.
#[tactic(auto, using(crate::proofs::Same::equal_same), unfolding(crate::specs::Hex::hex_length_of))]
pub fn hex_length(w: &[u8]) -> Option<usize>
    ensures { result ≡ hex_length_of w.now }
{
    if w == b"-".as_slice() {
        return Some(0);
    }
    is_hex(w).then_some(w.len() / 2)
}

// The value of a hex digit of either case.
fn digit_value(b: u8) -> u8
    requires { is_hex_digit b ≡ true }
    ensures value { result ≡ nibble b }
    ensures small { result < 16 }
{
    char::from(b).to_digit(16).unwrap() as u8
}

// Writes the bytes that the first n pairs of digits stand for.
fn write_bytes(w: &[u8], out: &mut [u8], n: usize)
    requires room { n ≤ length out.old }
    requires digits { (n + n ≤ length w.now) × ((k : ℕ) → k < n + n → is_hex_digit (get_or w.now k 0) ≡ true) }
    ensures { out.new ≡ paste out.old 0 (pairs w.now) n }
{
    for j in 0..n {
        let high = digit_value(w[j + j]);
        let low = digit_value(w[j + j + 1]);
        out[j] = high * 16 + low;
    }
}

// Writes the bytes that a word stands for at the start of out, and answers how many; where it is no
// hex, or they do not fit, nothing changes.
#[tactic(auto, unfolding(crate::specs::Hex::decoded_of, crate::specs::Hex::decoded_in))]
pub fn decode(w: &[u8], out: &mut [u8]) -> Option<usize>
    ensures count { result ≡ decoded_of w.now (length out.old) }
    ensures bytes { out.new ≡ decoded_in w.now out.old }
    ensures within { IfSome result (λ n. n ≤ length out.new) }
    ensures front { IfSome result (λ n. take n out.new ≡ pairs w.now) }
{
    let n = hex_length(w)?;
    if n > out.len() {
        return None;
    }
    write_bytes(w, out, n);
    Some(n)
}
