// Startup frames (RFC 5044, section 7.1): key, flags, revision, private data length, private data.
ghost use Rattle.std.specs.Prelude.{◌≡◌, not, ◌+◌, ◌≤◌, length, IfOk};
ghost use Rattle.wire.specs.Wire.{put, both};
ghost use Rattle.mpa.specs.Startup.{max_private, key_of, flags_of, flag_c, flag_r, startup_of, startup_written, startup_out, head_right, startup_taken, startup_read, crc_used};

use crate::StartupRead;
use wire::copy::{copy, same};
use wire::number::{get_be16, put_be16};
use wire::refusal::LocalRefusal;

// The longest private data.
pub const MAX_PRIVATE_DATA: usize = 512;

// The bytes before the private data.
const HEAD: usize = 20;

// The revision of the frames.
const REVISION: u8 = 1;

// The flag M: the sender asks for markers.
const FLAG_M: u8 = 0x80;

// The flag C: the sender asks for the CRC.
const FLAG_C: u8 = 0x40;

// The flag R: a reply declines.
const FLAG_R: u8 = 0x20;

// `MPA ID Req Frame`, a request's key.
const REQUEST_KEY: [u8; 16] = [
    b'M', b'P', b'A', b' ', b'I', b'D', b' ', b'R', b'e', b'q', b' ', b'F', b'r', b'a', b'm', b'e',
];

// `MPA ID Rep Frame`, a reply's.
const REPLY_KEY: [u8; 16] = [
    b'M', b'P', b'A', b' ', b'I', b'D', b' ', b'R', b'e', b'p', b' ', b'F', b'r', b'a', b'm', b'e',
];

// The key of a request or a reply.
pub fn key_of(reply: bool) -> [u8; 16]
    ensures { result ≡ key_of reply }
{
    if reply { REPLY_KEY } else { REQUEST_KEY }
}

// The flags with C and R as told.
pub fn flags_of(crc: bool, declined: bool) -> u8
    ensures { result ≡ flags_of crc declined }
{
    (if crc { FLAG_C } else { 0 }) + (if declined { FLAG_R } else { 0 })
}

// Whether R is asked for in a request.
pub fn request_declines(reply: bool, declined: bool) -> bool
    ensures { result ≡ both (not reply) declined }
{
    !reply && declined
}

// Writes the frame to the start of out.
fn write_whole(reply: bool, crc: bool, declined: bool, private_data: &[u8], out: &mut [u8])
    requires { (length private_data.now ≤ max_private) × (20 + length private_data.now ≤ length out.old) }
    ensures { out.new ≡ put out.old 0 (startup_of reply crc declined private_data.now) }
{
    let key = key_of(reply);
    copy(out, 0, &key);
    out[16] = flags_of(crc, declined);
    out[17] = REVISION;
    put_be16(out, 18, private_data.len());
    copy(out, HEAD, private_data);
}

// What a writer of n bytes of private data into room bytes answers.
#[tactic(auto, unfolding(crate::specs::Startup::startup_written))]
pub fn admit(reply: bool, declined: bool, n: usize, room: usize) -> Result<usize, LocalRefusal>
    ensures answer { result ≡ startup_written reply declined n room }
    ensures fits { IfOk result (λ total. (total ≡ 20 + n) × (n ≤ max_private) × (total ≤ room)) }
{
    if request_declines(reply, declined) {
        return Err(LocalRefusal::OutOfRange);
    }
    if MAX_PRIVATE_DATA < n {
        return Err(LocalRefusal::OverLimit);
    }
    let total = HEAD + n;
    if room < total {
        return Err(LocalRefusal::NoRoom);
    }
    Ok(total)
}

// Writes a startup frame to the start of out.
#[tactic(auto, unfolding(crate::specs::Startup::startup_written, crate::specs::Startup::startup_out))]
pub fn write_startup(
    reply: bool,
    crc: bool,
    declined: bool,
    private_data: &[u8],
    out: &mut [u8],
) -> Result<usize, LocalRefusal>
    ensures { (result ≡ startup_written reply declined (length private_data.now) (length out.old)) × (out.new ≡ startup_out reply crc declined private_data.now out.old) }
{
    let total = admit(reply, declined, private_data.len(), out.len())?;
    write_whole(reply, crc, declined, private_data, out);
    Ok(total)
}

// Whether the frame's head has the key expected, the revision and a length within the limit.
fn head_right(reply: bool, bytes: &[u8]) -> bool
    requires { 20 ≤ length bytes.now }
    ensures { result ≡ head_right reply bytes.now }
{
    let key = key_of(reply);
    same(&bytes[..16], &key) && bytes[17] == REVISION && get_be16(bytes, 18) <= MAX_PRIVATE_DATA
}

// C of the flags.
pub fn flag_c(flags: u8) -> bool
    ensures { result ≡ flag_c flags }
{
    flags / FLAG_C % 2 == 1
}

// R of the flags, which counts in a reply alone.
pub fn declines(reply: bool, flags: u8) -> bool
    ensures { result ≡ both reply (flag_r flags) }
{
    reply && flags / FLAG_R % 2 == 1
}

// What the frame is once its head is right.
#[tactic(auto, unfolding(crate::specs::Startup::startup_taken))]
fn taken(reply: bool, bytes: &[u8]) -> StartupRead
    requires { 20 ≤ length bytes.now }
    ensures { result ≡ startup_taken reply bytes.now }
{
    let n = get_be16(bytes, 18);
    let total = HEAD + n;
    if bytes.len() < total {
        return StartupRead::Wait(total);
    }
    let flags = bytes[16];
    StartupRead::Taken {
        total,
        crc: flag_c(flags),
        declined: declines(reply, flags),
        start: HEAD,
        len: n,
    }
}

// What the startup frame at the start of bytes is, of a request or a reply as told.
#[tactic(auto, unfolding(crate::specs::Startup::startup_read))]
pub fn read_startup(reply: bool, bytes: &[u8]) -> Result<StartupRead, LocalRefusal>
    ensures { result ≡ startup_read reply bytes.now }
{
    if bytes.len() < HEAD {
        return Ok(StartupRead::Wait(HEAD));
    }
    if !head_right(reply, bytes) {
        return Err(LocalRefusal::BadStartup);
    }
    if FLAG_M <= bytes[16] {
        return Err(LocalRefusal::Markers);
    }
    Ok(taken(reply, bytes))
}

// Whether the CRC is used, where each side has set C or not.
pub fn crc_used(ours: bool, theirs: bool) -> bool
    ensures { result ≡ crc_used ours theirs }
{
    ours || theirs
}
