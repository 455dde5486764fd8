// Numbers packed into a word, and taken out of one.
ghost use Rattle.std.specs.Prelude.{◌≡◌, ◌≤◌};
ghost use Rattle.block.specs.Words.{pair_word, lower_half, upper_half, flag_word, flag_in};

// Two numbers of 32 bits in a word: each is what the word's half says.
pub(crate) fn pair(low: u32, high: u32) -> u64
    ensures { (result ≡ pair_word low high) × (lower_half result ≡ low) × (upper_half result ≡ high) }
{
    low as u64 + high as u64 * 4294967296
}

// The lower half of a word.
pub(crate) fn lower(x: u64) -> u32
    ensures { result ≡ lower_half x }
{
    (x % 4294967296) as u32
}

// The upper half of a word.
pub(crate) fn upper(x: u64) -> u32
    ensures { result ≡ upper_half x }
{
    (x / 4294967296 % 4294967296) as u32
}

// A flag in a word.
pub(crate) fn flag(b: bool) -> u64
    ensures { (result ≡ flag_word b) × (result ≤ 1) × (flag_in result ≡ b) }
{
    b as u64
}
