// The CRCs of two pieces joined, from the second's length alone. A running value is a polynomial
// modulo the document's, one bit of the CRC is a multiplication by x, and n zero bytes are one by
// x^(8 * n): that power is made by halving n. The definitions are in specs/Shift.antt, and
// proofs/Shifts.antt shows that what `join` gives is the CRC of both pieces. Read `join` first.
ghost use Rattle.std.specs.Prelude.{◌≡◌, ◌*◌, ◌%◌};
ghost use Rattle.std.specs.Int.Bits.{bit_xor};
ghost use Rattle.crc_bits.specs.Crc.{crc_bit, crc_bits_of};
ghost use Rattle.crc_bits.specs.Shift.{one, times, joined};

// The running value carried on over one zero bit.
#[tactic(auto, using(crate::proofs::Linear::bit_is))]
fn bit(c: u32) -> u32
    ensures { result ≡ crc_bit c }
{
    (c / 2) ^ (c % 2 * 0x82F63B78)
}

// The running value carried on over one zero byte.
#[tactic(auto, using(crate::proofs::Shifts::bits_last))]
fn zero_byte(c: u32) -> u32
    ensures { result ≡ crc_bits_of 8 c }
{
    let mut r = c;
    for _ in 0..8u32 {
        r = bit(r);
    }
    r
}

// One bit of a product: what was summed up is carried on, and where the bit is set q is added.
fn summed(sum: u32, p: u32, q: u32) -> u32
    ensures { result ≡ bit_xor (crc_bit sum) (p % 2 * q) }
{
    bit(sum) ^ (p % 2 * q)
}

// The product of two running values.
pub fn times(p: u32, q: u32) -> u32
    ensures { result ≡ times p q }
{
    let mut sum = 0;
    let mut left = p;
    for _ in 0..32u32 {
        sum = summed(sum, left, q);
        left /= 2;
    }
    sum
}

// What n zero bytes multiply a running value by: the square of what half as many do, and for an odd
// n one byte more.
#[tactic(auto, using(crate::proofs::Shifts::square_even, crate::proofs::Shifts::square_odd))]
fn power(n: u32) -> u32
    ensures { result ≡ crc_bits_of (8 * n) one }
{
    if n == 0 {
        0x8000_0000
    } else {
        let half = power(n / 2);
        let square = times(half, half);
        if n % 2 == 0 {
            square
        } else {
            zero_byte(square)
        }
    }
}

// The CRC of two pieces together, from the CRC of each and the second's length.
#[tactic(auto, using(crate::proofs::Shifts::joined_is))]
pub fn join(first: u32, second: u32, len: u32) -> u32
    ensures { result ≡ joined first second len }
{
    times(power(len), first) ^ second
}
