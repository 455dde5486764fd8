// The static library for a C program, or one in Rust: every function that include/rnic.h declares, each the
// function of the crate `rnic_c` of the same name, with its clauses. That crate says what they do.
#![tactic(auto)]

ghost use Rattle.std.specs.Prelude.{◌≡◌, length, get_or};
ghost use Rattle.calls.specs.Call.{called, called_store, called_receive, called_offer};
ghost use Rattle.rnic.specs.Offer.{rnic_offered_store, rnic_offered_rooms, held_count};
ghost use Rattle.rnic.specs.Rnic.{rnic_received_store};
ghost use Rattle.block.specs.Device.{rnic_at};
ghost use Rattle.crc32c.specs.Crc.{crc_run, crc_of};
ghost use Rattle.crc32c.specs.Shift.{joined};
ghost use Rattle.mpa.specs.Fpdu.{fpdu_read, fpdu_written, fpdu_out};
ghost use Rattle.sender.specs.Message.{write_begun, send_begun, next_of, next_out};
ghost use Rattle.sender.specs.Words.{message_at, begun_number, begun_words, segment_words, words_next};
ghost use Rattle.startup2.specs.Frame.{frame_read};
ghost use Rattle.startup2.specs.Agree.{answered_of, settled_of};
ghost use Rattle.rnic_c.specs.Framing.{fpdu_words};
ghost use Rattle.rnic_c.specs.Written.{written_words};
ghost use Rattle.rnic_c.specs.Startup.{is_set, terms_from, frame_words, form_written, form_out, answered_number, reply_words, answered_words, settled_number, settled_words};

// A call by its number on a device that the caller holds, with the call's nine numbers, its bytes and the
// store; the answer's words.
#[unsafe(no_mangle)]
pub extern "C" fn rnic_c_call(
    device: &mut [u64; 945],
    store: &mut [u8],
    number: u64,
    a: &[u64; 9],
    bytes: &[u8],
    answer: &mut [u64; 8],
)
    ensures { (rnic_at device.new ≡ (called (rnic_at device.old) (length store.old) number a.now bytes.now).rnic) × (answer.new ≡ (called (rnic_at device.old) (length store.old) number a.now bytes.now).words) × (store.new ≡ called_store (rnic_at device.old) number a.now bytes.now store.old) }
{
    rnic_c::rnic_c_call(device, store, number, a, bytes, answer);
}

// The device's receive by itself: what `rnic_c_call` does with the number 9.
#[unsafe(no_mangle)]
pub extern "C" fn rnic_c_receive(
    device: &mut [u64; 945],
    store: &mut [u8],
    stream: u64,
    bytes: &[u8],
    answer: &mut [u64; 8],
)
    ensures { (rnic_at device.new ≡ (called_receive (rnic_at device.old) (length store.old) stream bytes.now).rnic) × (answer.new ≡ (called_receive (rnic_at device.old) (length store.old) stream bytes.now).words) × (store.new ≡ rnic_received_store (rnic_at device.old) stream bytes.now store.old) }
{
    rnic_c::rnic_c_receive(device, store, stream, bytes, answer);
}

// An offer: a receive of bytes that may be cut anywhere. Of an FPDU that is not complete the stream keeps the
// bytes in its room, one of sixteen that the caller lends with the store.
#[unsafe(no_mangle)]
pub extern "C" fn rnic_c_offer(
    device: &mut [u64; 945],
    store: &mut [u8],
    rooms: &mut [u8],
    stream: u64,
    bytes: &[u8],
    answer: &mut [u64; 8],
)
    ensures { (rnic_at device.new ≡ (called_offer (rnic_at device.old) (length store.old) stream rooms.old bytes.now).rnic) × (answer.new ≡ (called_offer (rnic_at device.old) (length store.old) stream rooms.old bytes.now).words) × (store.new ≡ rnic_offered_store (rnic_at device.old) stream rooms.old bytes.now store.old) × (rooms.new ≡ rnic_offered_rooms (rnic_at device.old) (length store.old) stream rooms.old bytes.now) }
{
    rnic_c::rnic_c_offer(device, store, rooms, stream, bytes, answer);
}

// How many bytes of an FPDU that is not complete a stream holds; 0 of a number that is no stream's.
#[unsafe(no_mangle)]
pub extern "C" fn rnic_c_held(device: &[u64; 945], stream: u64) -> u32
    ensures { result ≡ held_count (rnic_at device.now) stream }
{
    rnic_c::rnic_c_held(device, stream)
}

// The CRC-32C of bytes, by which a program can write frames of its own.
#[unsafe(no_mangle)]
pub extern "C" fn rnic_c_crc32c(bytes: &[u8]) -> u32
    ensures { result ≡ crc_of bytes.now }
{
    rnic_c::rnic_c_crc32c(bytes)
}

// The same in pieces: a running value carried on over a piece more. It starts at all ones, and the CRC
// is its inverse.
#[unsafe(no_mangle)]
pub extern "C" fn rnic_c_crc32c_update(running: u32, bytes: &[u8]) -> u32
    ensures { result ≡ crc_run running bytes.now }
{
    rnic_c::rnic_c_crc32c_update(running, bytes)
}

// The CRC-32C of two pieces together, from the CRC of each and the second's length.
#[unsafe(no_mangle)]
pub extern "C" fn rnic_c_crc32c_join(first: u32, second: u32, len: u32) -> u32
    ensures { result ≡ joined first second len }
{
    rnic_c::rnic_c_crc32c_join(first, second, len)
}

// Begins a Write of len bytes to an STag and a tagged offset, in ULPDUs of at most limit bytes: 0, or the
// refusal's number.
#[unsafe(no_mangle)]
pub extern "C" fn rnic_c_message_write(
    message: &mut [u64; 9],
    limit: u64,
    stag: u64,
    to: u64,
    len: u64,
) -> u32
    ensures { (result ≡ begun_number (write_begun limit stag to len)) × (message.new ≡ begun_words message.old (write_begun limit stag to len)) }
{
    rnic_c::message::rnic_c_message_write(message, limit, stag, to, len)
}

// Begins a Send of len bytes by its opcode and number, with the STag that it invalidates: 0, or the
// refusal's number.
#[unsafe(no_mangle)]
pub extern "C" fn rnic_c_message_send(
    message: &mut [u64; 9],
    limit: u64,
    opcode: u64,
    msn: u64,
    stag: u64,
    len: u64,
) -> u32
    ensures { (result ≡ begun_number (send_begun limit opcode msn stag len)) × (message.new ≡ begun_words message.old (send_begun limit opcode msn stag len)) }
{
    rnic_c::message::rnic_c_message_send(message, limit, opcode, msn, stag, len)
}

// Writes the next segment of a message, lent all of its bytes, to the start of out; the answer's words are
// a kind and a number: 0 and a refusal's, 1 and the segment's length, or 2 and 0 after the last.
#[unsafe(no_mangle)]
pub extern "C" fn rnic_c_message_next(
    message: &mut [u64; 9],
    bytes: &[u8],
    out: &mut [u8],
    answer: &mut [u64; 2],
)
    ensures { (message.new ≡ words_next message.old (next_of (message_at message.old) (length bytes.now) (length out.old))) × (answer.new ≡ segment_words (next_of (message_at message.old) (length bytes.now) (length out.old)).0) × (out.new ≡ next_out (message_at message.old) bytes.now out.old) × (message_at message.new ≡ (next_of (message_at message.old) (length bytes.now) (length out.old)).1) }
{
    rnic_c::message::rnic_c_message_next(message, bytes, out, answer);
}

// Writes the FPDU of a ULPDU, with its CRC, to the start of out; the answer's words are as above.
#[unsafe(no_mangle)]
pub extern "C" fn rnic_c_fpdu_write(ulpdu: &[u8], out: &mut [u8], answer: &mut [u64; 2])
    ensures { (answer.new ≡ written_words (fpdu_written (length ulpdu.now) (length out.old))) × (out.new ≡ fpdu_out ulpdu.now out.old) }
{
    rnic_c::message::rnic_c_fpdu_write(ulpdu, out, answer);
}

// Reads the first FPDU of bytes, with the CRC off where crc is 0 and else on, into the words: a kind, and what
// goes with it.
#[unsafe(no_mangle)]
pub extern "C" fn rnic_c_fpdu_read(crc: u64, bytes: &[u8], answer: &mut [u64; 4])
    ensures { answer.new ≡ fpdu_words (fpdu_read (is_set crc) bytes.now) }
{
    rnic_c::framing::rnic_c_fpdu_read(crc, bytes, answer);
}

// Reads the startup frame at the start of bytes, of a request where reply is 0 and else of a reply, into the
// words.
#[unsafe(no_mangle)]
pub extern "C" fn rnic_c_startup_read(reply: u64, bytes: &[u8], found: &mut [u64; 9])
    ensures { found.new ≡ frame_words (frame_read (is_set reply) bytes.now) }
{
    rnic_c::startup::rnic_c_startup_read(reply, bytes, found);
}

// Writes the frame in the words, of a request where reply is 0 and else of a reply, with the private data to
// the start of out. Total and start are not looked at, so that what was read can be written again.
#[unsafe(no_mangle)]
pub extern "C" fn rnic_c_startup_write(
    reply: u64,
    frame: &[u64; 9],
    private_data: &[u8],
    out: &mut [u8],
    answer: &mut [u64; 2],
)
    ensures { (answer.new ≡ written_words (form_written (is_set reply) frame.now (length private_data.now) (length out.old))) × (out.new ≡ form_out (is_set reply) frame.now private_data.now out.old) }
{
    rnic_c::startup::rnic_c_startup_write(reply, frame, private_data, out, answer);
}

// What a responder of these terms answers to a request's: 0, with the terms that its reply says and those that
// it keeps to, or the refusal's number.
#[unsafe(no_mangle)]
pub extern "C" fn rnic_c_agree_answer(
    own: &[u64; 4],
    request: &[u64; 4],
    reply: &mut [u64; 4],
    kept: &mut [u64; 4],
) -> u32
    ensures { (result ≡ answered_number (answered_of (terms_from own.now 0) (terms_from request.now 0))) × (reply.new ≡ reply_words reply.old (answered_of (terms_from own.now 0) (terms_from request.now 0))) × (kept.new ≡ answered_words kept.old (get_or own.now 1 0) (answered_of (terms_from own.now 0) (terms_from request.now 0))) }
{
    rnic_c::startup::rnic_c_agree_answer(own, request, reply, kept)
}

// What an initiator of these terms makes of a reply's: 0, with the terms that it keeps to, or the refusal's
// number.
#[unsafe(no_mangle)]
pub extern "C" fn rnic_c_agree_settle(own: &[u64; 4], reply: &[u64; 4], kept: &mut [u64; 4]) -> u32
    ensures { (result ≡ settled_number (settled_of (terms_from own.now 0) (terms_from reply.now 0))) × (kept.new ≡ settled_words kept.old (settled_of (terms_from own.now 0) (terms_from reply.now 0))) }
{
    rnic_c::startup::rnic_c_agree_settle(own, reply, kept)
}
