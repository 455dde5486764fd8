// What stands at a place of a slice: a field, or none where too few bytes are left, and the bytes that are left.
ghost use Rattle.std.specs.Prelude.{◌≡◌};
ghost use Rattle.segment_reader.specs.Field.{byte_field, be32_field, be64_field, left_from, rest_from, place_after};

use wire::number::{get_be32, get_be64};

// How many bytes are left from a place on: none past the end.
pub fn left_at(s: &[u8], at: usize) -> usize
    ensures { result ≡ left_from s.now at }
{
    s.len().saturating_sub(at)
}

// The bytes that are left from a place on.
pub fn rest_at(s: &[u8], at: usize) -> &[u8]
    ensures { result.now ≡ rest_from s.now at }
{
    &s[at.min(s.len())..]
}

// The place n bytes on, or the end where fewer are left.
pub fn place_after(s: &[u8], at: usize, n: usize) -> usize
    ensures { result ≡ place_after s.now at n }
{
    if left_at(s, at) < n {
        return s.len();
    }
    at + n
}

// The byte at a place.
pub fn byte_at(s: &[u8], at: usize) -> Option<u8>
    ensures { result ≡ byte_field s.now at }
{
    s.get(at).copied()
}

// The big-endian number in the four bytes from a place on.
pub fn be32_at(s: &[u8], at: usize) -> Option<u32>
    ensures { result ≡ be32_field s.now at }
{
    if left_at(s, at) < 4 {
        return None;
    }
    Some(get_be32(s, at))
}

// The big-endian number in the eight bytes from a place on.
pub fn be64_at(s: &[u8], at: usize) -> Option<u64>
    ensures { result ≡ be64_field s.now at }
{
    if left_at(s, at) < 8 {
        return None;
    }
    Some(get_be64(s, at))
}
