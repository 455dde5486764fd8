// Words that are decimal numbers of 64 bits.
ghost use Rattle.std.specs.Prelude.{◌≡◌, ◌∷◌, []};
ghost use Rattle.script.specs.Number.{number_of, number_from};

// v with one more digit after it, where the byte is one and the number still fits.
#[tactic(auto, unfolding(crate::specs::Number::number_from, crate::specs::Number::value_from))]
fn with_digit(v: u64, b: u8) -> Option<u64>
    ensures { result ≡ number_from v (b ∷ []) }
{
    let digit = char::from(b).to_digit(10)?;
    v.checked_mul(10)?.checked_add(u64::from(digit))
}

// The number that a word of digits alone stands for.
pub fn read_number(w: &[u8]) -> Option<u64>
    ensures { result ≡ number_of w.now }
{
    if w.is_empty() {
        return None;
    }
    let mut v = 0;
    for b in w {
        v = with_digit(v, *b)?;
    }
    Some(v)
}
