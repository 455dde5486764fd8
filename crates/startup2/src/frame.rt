// Startup frames of both revisions, written and read (RFC 6581, section 6): key, flags, revision, the length of
// all the private data, the terms where S is set, private data.
ghost use Rattle.std.specs.Prelude.{◌≡◌, true, false, ◌++◌, ◌+◌, ◌≤◌, ◌<◌, length};
ghost use Rattle.wire.specs.Wire.{pick, put};
ghost use Rattle.mpa.specs.Fpdu.{out_after};
ghost use Rattle.mpa.specs.Startup.{max_private, startup_written};
ghost use Rattle.startup2.specs.Terms.{terms_fit, terms_of};
ghost use Rattle.startup2.specs.Frame.{flags2_of, head_of, startup2_of, frame_written, frame_out, flag_s, terms_there, head2_right, whole_of, taken2_of, second_read, first_read, frame_read};

use crate::fields::{put_terms, terms_at, terms_fit};
use crate::{Form, FrameRead, Terms};
use mpa::StartupRead;
use mpa::startup::{
    MAX_PRIVATE_DATA, admit, declines, flag_c, flags_of, key_of, read_startup, write_startup,
};
use wire::copy::{copy, same};
use wire::number::{get_be16, put_be16};
use wire::refusal::LocalRefusal;

// The bytes before the private data.
const HEAD: usize = 20;

// The bytes of the terms, and those before the private data behind them.
const TERMS: usize = 4;

const HEAD_AND_TERMS: usize = 24;

// The revision of the frames that may have terms.
const REVISION: u8 = 2;

// The flag M: the sender asks for markers.
const FLAG_M: u8 = 0x80;

// The flag S: the private data starts with the terms.
const FLAG_S: u8 = 0x10;

// Writes key, flags, revision 2 and the length of the private data to the start of out.
fn put_head(reply: bool, flags: u8, n: usize, out: &mut [u8])
    requires { (n < 65536) × (20 ≤ length out.old) }
    ensures { out.new ≡ put out.old 0 (head_of reply flags n) }
{
    let key = key_of(reply);
    copy(out, 0, &key);
    out[16] = flags;
    out[17] = REVISION;
    put_be16(out, 18, n);
}

// Writes a frame of revision 2 with S clear to the start of out.
fn write_second(
    reply: bool,
    crc: bool,
    declined: bool,
    private_data: &[u8],
    out: &mut [u8],
) -> Result<usize, LocalRefusal>
    ensures { (result ≡ startup_written reply declined (length private_data.now) (length out.old)) × (out.new ≡ out_after (startup_written reply declined (length private_data.now) (length out.old)) out.old (startup2_of reply crc declined false private_data.now)) }
{
    let n = private_data.len();
    let total = admit(reply, declined, n, out.len())?;
    put_head(reply, flags_of(crc, declined), n, out);
    copy(out, HEAD, private_data);
    Ok(total)
}

// Writes a frame of revision 2 with S and terms to the start of out.
#[tactic(auto, using(crate::proofs::Fits::flags_small))]
fn write_enhanced(
    reply: bool,
    crc: bool,
    declined: bool,
    terms: Terms,
    private_data: &[u8],
    out: &mut [u8],
) -> Result<usize, LocalRefusal>
    requires { terms_fit terms ≡ true }
    ensures { (result ≡ startup_written reply declined (4 + length private_data.now) (length out.old)) × (out.new ≡ out_after (startup_written reply declined (4 + length private_data.now) (length out.old)) out.old (startup2_of reply crc declined true (terms_of terms ++ private_data.now))) }
{
    let n = TERMS + private_data.len();
    let total = admit(reply, declined, n, out.len())?;
    put_head(reply, flags_of(crc, declined) + FLAG_S, n, out);
    put_terms(terms, out, HEAD);
    copy(out, HEAD_AND_TERMS, private_data);
    Ok(total)
}

// Writes a startup frame of a form to the start of out.
#[tactic(auto, unfolding(crate::specs::Frame::frame_written, crate::specs::Frame::frame_out, mpa::specs::Startup::startup_out))]
pub fn write_frame(
    reply: bool,
    crc: bool,
    declined: bool,
    form: Form,
    private_data: &[u8],
    out: &mut [u8],
) -> Result<usize, LocalRefusal>
    ensures { (result ≡ frame_written reply declined form (length private_data.now) (length out.old)) × (out.new ≡ frame_out reply crc declined form private_data.now out.old) }
{
    match form {
        Form::First => write_startup(reply, crc, declined, private_data, out),
        Form::Second => write_second(reply, crc, declined, private_data, out),
        Form::Enhanced(terms) if terms_fit(terms) => {
            write_enhanced(reply, crc, declined, terms, private_data, out)
        }
        Form::Enhanced(_) => Err(LocalRefusal::OutOfRange),
    }
}

// S of the flags.
fn flag_s(flags: u8) -> bool
    ensures { result ≡ flag_s flags }
{
    flags / FLAG_S % 2 == 1
}

// Whether n bytes of private data have room for the terms, where there are any.
fn terms_there(flags: u8, n: usize) -> bool
    ensures { result ≡ terms_there flags n }
{
    !flag_s(flags) || TERMS <= n
}

// Whether the head of a frame of revision 2 has the key expected, and a length within the limit that has room
// for the terms.
fn head_right(reply: bool, bytes: &[u8]) -> bool
    requires { 20 ≤ length bytes.now }
    ensures { result ≡ head2_right reply bytes.now }
{
    let key = key_of(reply);
    let n = get_be16(bytes, 18);
    same(&bytes[..16], &key) && n <= MAX_PRIVATE_DATA && terms_there(bytes[16], n)
}

// What the frame of revision 2 is once its head is right.
#[tactic(auto, unfolding(crate::specs::Frame::taken2_of))]
fn taken(reply: bool, bytes: &[u8]) -> FrameRead
    requires { (20 ≤ length bytes.now) × (head2_right reply bytes.now ≡ true) }
    ensures { result ≡ taken2_of reply bytes.now }
{
    let n = get_be16(bytes, 18);
    let total = HEAD + n;
    if bytes.len() < total {
        return FrameRead::Wait(total);
    }
    let flags = bytes[16];
    if flag_s(flags) {
        return FrameRead::Taken {
            total,
            crc: flag_c(flags),
            declined: declines(reply, flags),
            form: Form::Enhanced(terms_at(bytes, HEAD)),
            start: HEAD_AND_TERMS,
            len: n - TERMS,
        };
    }
    FrameRead::Taken {
        total,
        crc: flag_c(flags),
        declined: declines(reply, flags),
        form: Form::Second,
        start: HEAD,
        len: n,
    }
}

// What the frame of revision 2 at the start of bytes is.
#[tactic(auto, unfolding(crate::specs::Frame::second_read))]
fn read_second(reply: bool, bytes: &[u8]) -> Result<FrameRead, LocalRefusal>
    requires { 20 ≤ length bytes.now }
    ensures { result ≡ second_read reply bytes.now }
{
    if !head_right(reply, bytes) {
        return Err(LocalRefusal::BadStartup);
    }
    if FLAG_M <= bytes[16] {
        return Err(LocalRefusal::Markers);
    }
    Ok(taken(reply, bytes))
}

// What the reader for revision 1 says, as this one says it.
fn first_read(read: StartupRead) -> FrameRead
    ensures { result ≡ first_read read }
{
    match read {
        StartupRead::Wait(n) => FrameRead::Wait(n),
        StartupRead::Taken {
            total,
            crc,
            declined,
            start,
            len,
        } => FrameRead::Taken {
            total,
            crc,
            declined,
            form: Form::First,
            start,
            len,
        },
    }
}

// What the startup frame at the start of bytes is, of a request or a reply as told, of either revision.
#[tactic(auto, unfolding(crate::specs::Frame::frame_read))]
pub fn read_frame(reply: bool, bytes: &[u8]) -> Result<FrameRead, LocalRefusal>
    ensures { result ≡ frame_read reply bytes.now }
{
    if bytes.len() < HEAD {
        return Ok(FrameRead::Wait(HEAD));
    }
    if bytes[17] == REVISION {
        return read_second(reply, bytes);
    }
    Ok(first_read(read_startup(reply, bytes)?))
}
