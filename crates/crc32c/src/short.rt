// The running value carried on over a slice, eight bytes at a time, by half bytes. Read `carry` first.
ghost use Rattle.std.specs.Prelude.{◌≡◌};
ghost use Rattle.crc_bits.specs.Crc.{crc_byte, crc_run};

use crc_halves::half;

// The running value carried on over eight bytes.
fn over_eight(c: u32, s: &[u8; 8]) -> u32
    ensures { result ≡ crc_run c s.now }
{
    let x = c ^ u32::from_le_bytes([s[0], s[1], s[2], s[3]]);
    let y = u32::from_le_bytes([s[4], s[5], s[6], s[7]]);
    let high = half::<4>(y / 268435456)
        ^ half::<8>(y / 16777216)
        ^ half::<12>(y / 1048576)
        ^ half::<16>(y / 65536)
        ^ half::<20>(y / 4096)
        ^ half::<24>(y / 256)
        ^ half::<28>(y / 16)
        ^ half::<32>(y);
    let low = half::<36>(x / 268435456)
        ^ half::<40>(x / 16777216)
        ^ half::<44>(x / 1048576)
        ^ half::<48>(x / 65536)
        ^ half::<52>(x / 4096)
        ^ half::<56>(x / 256)
        ^ half::<60>(x / 16)
        ^ half::<64>(x);
    high ^ low
}

// The running value carried on over one byte.
fn over_byte(c: u32, b: u8) -> u32
    ensures { result ≡ crc_byte c b }
{
    let x = c ^ b as u32;
    (x / 256) ^ half::<4>(x / 16) ^ half::<8>(x)
}

// The running value carried on over a slice.
pub(crate) fn carry(start: u32, s: &[u8]) -> u32
    ensures { result ≡ crc_run start s.now }
{
    let (eights, rest) = s.as_chunks::<8>();
    let mut c = start;
    for eight in eights {
        c = over_eight(c, eight);
    }
    for b in rest {
        c = over_byte(c, *b);
    }
    c
}
