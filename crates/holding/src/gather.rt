// The bytes of an FPDU gathered in a stream's room: those that are held, and behind them those of a call,
// until they say what the FPDU is.
ghost use Rattle.std.specs.Prelude.{◌≡◌, ◌+◌, ◌≤◌, ◌<◌, ◌++◌, length, get_or, take, ltb};
ghost use Rattle.holding.specs.Pending.{room_bytes, needed_of, gathered, held_now, room_after};

use ddp::place::place;
use mpa::fpdu::{MAX_FPDU, needed};

// How many bytes a stream's room has: those of the longest FPDU.
pub const ROOM: usize = MAX_FPDU;

// How many the rooms of all sixteen streams have.
pub const ROOMS: usize = 16 * ROOM;

// What is pending: too little, and then so many bytes are held; or enough, of which the first so many are
// received.
#[derive(Clone, Copy)]
pub enum Gathered {
    Short(u32),
    Enough(usize),
}

// A pending byte: of those held, which the room starts with, or else of the call's.
fn pending(room: &[u8], held: usize, bytes: &[u8], i: usize) -> usize
    requires { (held ≤ length room.now) × (i < held + length bytes.now) }
    ensures { (result ≡ get_or (take held room.now ++ bytes.now) i 0) × (result < 256) }
{
    if i < held {
        return usize::from(room[i]);
    }
    usize::from(bytes[i - held])
}

// Whether fewer than two bytes are pending.
fn few(held: usize, more: usize) -> bool
    ensures { result ≡ ltb (held + more) 2 }
{
    held < 2 && more < 2 - held
}

// How many bytes a receive of the pending bytes needs.
#[tactic(auto, unfolding(crate::specs::Pending::needed_of))]
fn needed_of(room: &[u8], held: usize, bytes: &[u8]) -> usize
    requires { held ≤ length room.now }
    ensures { (result ≡ needed_of (take held room.now ++ bytes.now)) × (result ≤ room_bytes) × (2 ≤ result) }
{
    if few(held, bytes.len()) {
        return 2;
    }
    let high = pending(room, held, bytes, 0);
    let low = pending(room, held, bytes, 1);
    needed(high * 256 + low)
}

// How many bytes are held, of a count: no more than the room has.
pub fn held_in(room: &[u8], held: u32) -> usize
    ensures { (result ≡ length (take held room.now)) × (result ≤ length room.now) × (take result room.now ≡ take held room.now) }
{
    room.len().min(held as usize)
}

// Puts the bytes behind those held, which the room starts with: all where they are too few, and else those
// up to the FPDU's end. Where none are held an FPDU is received where it lies, and nothing is put.
#[tactic(auto, using(crate::proofs::Rooms::gathered_short, crate::proofs::Rooms::room_short, crate::proofs::Rooms::gathered_enough, crate::proofs::Rooms::room_rest, crate::proofs::Rooms::room_fresh, crate::proofs::Rooms::room_over))]
pub fn gather(room: &mut [u8], held: u32, bytes: &[u8]) -> Gathered
    ensures { (result ≡ gathered (take held room.old) bytes.now) × (room.new ≡ room_after (take held room.old) bytes.now room.old) }
{
    let h = held_in(room, held);
    let n = needed_of(room, h, bytes);
    if h < n {
        let more = n - h;
        if bytes.len() < more {
            place(room, h as u64, bytes);
            return Gathered::Short((h + bytes.len()) as u32);
        }
        if 0 < h {
            place(room, h as u64, &bytes[..more]);
        }
    }
    Gathered::Enough(n)
}

// How many bytes are held then.
pub fn held_now(g: Gathered) -> u32
    ensures { result ≡ held_now g }
{
    match g {
        Gathered::Short(n) => n,
        Gathered::Enough(_) => 0,
    }
}
