// Writes the CRC-32C of outside vectors, as eight hex digits each: document 001, section 4.4, both
// dumps (52 23 99 83 and 84 92 58 98, the least significant byte first); RFC 3720, appendix B.4, 32
// bytes of zeros, of ones, rising, and falling; nothing at all; and the usual check value. Each is
// computed whole, and cut in two at every place: carried on over both pieces, and joined from theirs.
#![tactic(auto)]

use crc32c::shift::join;
use crc32c::{ALL_ONES, crc32c, update};
use std::io;

// Whether the bytes cut at a place have that CRC, in both ways.
fn cut_agrees(bytes: &[u8], cut: usize, crc: u32) -> bool {
    let Some((first, second)) = bytes.split_at_checked(cut) else {
        return false;
    };
    let running = update(ALL_ONES, first);
    let size = (second.len() % 0x1_0000_0000) as u32;
    ALL_ONES - update(running, second) == crc && join(crc32c(first), crc32c(second), size) == crc
}

// Whether they do at every place.
fn cuts_agree(bytes: &[u8], crc: u32) -> bool {
    (0..=bytes.len()).all(|cut| cut_agrees(bytes, cut, crc))
}

// Writes the CRC of some bytes, or that the ways differ.
fn show(rt: &impl Print, bytes: &[u8]) -> io::Result<()> {
    let crc = crc32c(bytes);
    if cuts_agree(bytes, crc) {
        println!(rt; "{crc:08x}")
    } else {
        println!(rt; "differs")
    }
}

fn main(rt: HostRuntime) -> io::Result<()> {
    show(
        &rt,
        b"\x00\x00\x00\x00\x00\x2a\x41\x43\x00\x00\x00\x00\x00\x00\x00\x00\x00\x00\x00\x01\x00\x00\x00\x00\x00\x00\x00\x00\x00\x00\x00\x00\x00\x00\x00\x00\x00\x00\x00\x00\x00\x00\x00\x00\x00\x00\x00\x00",
    )?;
    show(
        &rt,
        b"\x00\x2a\x41\x43\x00\x00\x00\x00\x00\x00\x00\x00\x00\x00\x00\x02\x00\x00\x00\x00\x00\x00\x00\x14\x00\x00\x00\x00\x00\x00\x00\x00\x00\x00\x00\x00\x00\x00\x00\x00\x00\x00\x00\x00\x00\x00\x00\x00",
    )?;
    show(&rt, &[0; 32])?;
    show(&rt, &[255; 32])?;
    show(
        &rt,
        b"\x00\x01\x02\x03\x04\x05\x06\x07\x08\x09\x0a\x0b\x0c\x0d\x0e\x0f\x10\x11\x12\x13\x14\x15\x16\x17\x18\x19\x1a\x1b\x1c\x1d\x1e\x1f",
    )?;
    show(
        &rt,
        b"\x1f\x1e\x1d\x1c\x1b\x1a\x19\x18\x17\x16\x15\x14\x13\x12\x11\x10\x0f\x0e\x0d\x0c\x0b\x0a\x09\x08\x07\x06\x05\x04\x03\x02\x01\x00",
    )?;
    show(&rt, b"")?;
    show(&rt, b"123456789")
}
