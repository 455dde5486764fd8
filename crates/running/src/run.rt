// One line of the script: it is run, and its answer is put into a text.
ghost use Rattle.std.specs.Prelude.{◌≡◌, min, ◌++◌, length, take, drop};
ghost use Rattle.calls.specs.Call.{called, called_store};
ghost use Rattle.block.specs.Device.{rnic_at};
ghost use Rattle.running.specs.Run.{
  first_state,
  line_request,
  state_at,
  state_after,
  store_then,
  line_state,
  line_store,
  line_rooms,
  line_message,
  line_held,
};

use crate::offer::{offers, run_offering};
use command::answer::bad;
use command::args::room;
use device::opening::open;
use holding::gather::ROOMS;
use report::tell;
use request::{DeviceCall, ask};
use rnic_c::rnic_c_call;
use script::text::Text;
use sending::is_sending;

// What a run starts with: puts the device that a refused opening leaves into the words, and answers how
// many bytes are lent, none.
pub fn first_state(device: &mut [u64; 945]) -> u64
    ensures { state_at result device.new ≡ first_state }
{
    let _ = open(device, 0, 0, 0, 0, 0, 0, 0, 0, 0);
    0
}

// Makes a call on the first bytes of the store with the first bytes of the buffer, as many as are asked
// for and there, and answers it.
fn make_call<const N: usize>(
    asked: DeviceCall,
    device: &mut [u64; 945],
    bytes: &[u8],
    store: &mut [u8],
    text: &mut Text<N>,
)
    ensures rnic { rnic_at device.new ≡ (called (rnic_at device.old) (min asked.lent (length store.old)) asked.number asked.numbers (take (min asked.size (length bytes.now)) bytes.now)).rnic }
    ensures rest { store.new ≡ called_store (rnic_at device.old) asked.number asked.numbers (take (min asked.size (length bytes.now)) bytes.now) (take (min asked.lent (length store.old)) store.old) ++ drop (min asked.lent (length store.old)) store.old }
{
    let lent = room(asked.lent, store.len());
    let size = room(asked.size as u64, bytes.len());
    let numbers = asked.numbers;
    let number = asked.number;
    let mut answer = [0u64; 8];
    rnic_c_call(
        device,
        &mut store[..lent],
        number,
        &numbers,
        &bytes[..size],
        &mut answer,
    );
    tell(number, answer, text)
}

// Runs a line of `count` bytes that is no command on messages, which the buffer `line` starts with unless
// the line is too long.
#[tactic(auto, using(crate::proofs::Lines::call_made, crate::proofs::Lines::no_call))]
fn run_asked<const N: usize>(
    kept: u64,
    device: &mut [u64; 945],
    line: &[u8],
    count: usize,
    bytes: &mut [u8],
    frame: &mut [u8],
    store: &mut [u8],
    text: &mut Text<N>,
) -> u64
    ensures state { state_at result device.new ≡ state_after (state_at kept device.old) (line_request kept (length bytes.old) (length store.old) line.now count) store.old }
    ensures rest { store.new ≡ store_then (state_at kept device.old) (line_request kept (length bytes.old) (length store.old) line.now count) store.old }
{
    if line.len() < count {
        bad(text);
        return kept;
    }
    if let Some(call) = ask(&line[..count], kept, bytes, frame, store, text) {
        make_call(call, device, bytes, store, text);
        return call.kept;
    }
    kept
}

// Runs a line of `count` bytes that is no command on offers, which the buffer `line` starts with unless the
// line is too long. A command on messages is run on the message begun last, its words and its bytes in
// front of `held`, and on nothing else.
fn run_other<const N: usize>(
    kept: u64,
    device: &mut [u64; 945],
    message: &mut [u64; 9],
    held: &mut [u8],
    line: &[u8],
    count: usize,
    bytes: &mut [u8],
    frame: &mut [u8],
    store: &mut [u8],
    text: &mut Text<N>,
) -> u64
    ensures state { state_at result device.new ≡ state_after (state_at kept device.old) (line_request kept (length bytes.old) (length store.old) line.now count) store.old }
    ensures rest { store.new ≡ store_then (state_at kept device.old) (line_request kept (length bytes.old) (length store.old) line.now count) store.old }
    ensures message { message.new ≡ line_message message.old (length held.old) (length bytes.old) (length frame.old) line.now count }
    ensures held { held.new ≡ line_held held.old (length bytes.old) line.now count }
{
    if line.len() < count {
        return run_asked(kept, device, line, count, bytes, frame, store, text);
    }
    if is_sending(&line[..count]) {
        sending::run(&line[..count], message, held, bytes, frame, text);
        return kept;
    }
    run_asked(kept, device, line, count, bytes, frame, store, text)
}

// Runs a line of `count` bytes, which the buffer `line` starts with unless the line is too long, and puts its
// answer into the text, nothing where it is not answered. Answers the LENGTH of the last `open` then, which is
// how many of the store's bytes a line lends that does not say. A command on offers is run on the device, the
// store and the second slice, `rooms`, which no other line touches.
pub fn run_line<const N: usize>(
    kept: u64,
    device: &mut [u64; 945],
    message: &mut [u64; 9],
    held: &mut [u8],
    line: &[u8],
    count: usize,
    bytes: &mut [u8],
    frame: &mut [u8],
    store: &mut [u8],
    rooms: &mut [u8; ROOMS],
    text: &mut Text<N>,
) -> u64
    ensures state { state_at result device.new ≡ line_state (state_at kept device.old) (length bytes.old) store.old rooms.old line.now count }
    ensures rest { store.new ≡ line_store (state_at kept device.old) (length bytes.old) store.old rooms.old line.now count }
    ensures rooms { rooms.new ≡ line_rooms (state_at kept device.old) (length bytes.old) store.old rooms.old line.now count }
    ensures message { message.new ≡ line_message message.old (length held.old) (length bytes.old) (length frame.old) line.now count }
    ensures held { held.new ≡ line_held held.old (length bytes.old) line.now count }
{
    text.clear();
    if offers(line, count) {
        run_offering(kept, device, &line[..count], bytes, store, rooms, text);
        return kept;
    }
    run_other(
        kept, device, message, held, line, count, bytes, frame, store, text,
    )
}
