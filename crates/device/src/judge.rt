// What an untagged segment is judged to be, by the one window that it names and the one queue that it goes to.
ghost use Rattle.std.specs.Prelude.{◌≡◌, length};
ghost use Rattle.memory.specs.Window.{window_at, slot_named};
ghost use Rattle.ddp.specs.Untagged.{untagged_of};
ghost use Rattle.rdmap.specs.Message.{stag_named, queue_of, untagged_verdict};
ghost use Rattle.rdmap.specs.Sends.{current_buffer};
ghost use Rattle.rnic.specs.Rnic.{domain_at};
ghost use Rattle.block.specs.Queue.{head_of};
ghost use Rattle.block.specs.Device.{rnic_at};
ghost use Rattle.block.specs.Exchange.{stream_of};

use block::reads::load_tally;
use block::sends::{Head, load_head};
use block::terminates::load_terminates;
use block::window::load_window;
use ddp::header::UntaggedHeader;
use ddp::refusal::Refusal;
use ddp::untagged::Queue;
use memory::window::slot_named;
use rdmap::message::{Verdict, judge_untagged_segment, stag_named};
use slots::place::StreamPlace;

// What a queue of the stream of a domain's slot expects; head is that of its sends.
fn queue_of(words: &[u64; 945], at: StreamPlace, head: Head, qn: u32) -> Queue
    requires { head ≡ head_of (stream_of (rnic_at words.now) at.domain at.slot).sends }
    ensures { result ≡ queue_of (stream_of (rnic_at words.now) at.domain at.slot) qn }
{
    if qn == 0 {
        let buffer = head.buffer;
        return Queue {
            msn: head.msn,
            room: 0 < head.count,
            limit: buffer.len,
            taken: head.taken,
        };
    }
    if qn == 1 {
        let tally = load_tally(words, at.domain, at.slot);
        return Queue {
            msn: tally.msn,
            room: tally.count < 8,
            limit: 28,
            taken: 0,
        };
    }
    let terminates = load_terminates(words, at.domain, at.slot);
    terminates.queue()
}

// Judges an untagged segment for the stream of a domain's slot.
pub(crate) fn judge_untagged(
    words: &[u64; 945],
    at: StreamPlace,
    h: UntaggedHeader,
    payload: &[u8],
) -> Result<Verdict, Refusal>
    ensures { result ≡ untagged_verdict (window_at (domain_at (rnic_at words.now) at.domain).windows (slot_named (stag_named h payload.now))) at.domain (stream_of (rnic_at words.now) at.domain at.slot).sends.opcode (current_buffer (stream_of (rnic_at words.now) at.domain at.slot).sends) h payload.now (untagged_of (queue_of (stream_of (rnic_at words.now) at.domain at.slot) h.qn) h.qn h.msn h.mo (length payload.now)) }
{
    let head = load_head(words, at.domain, at.slot);
    let q = queue_of(words, at, head, h.qn);
    let w = load_window(words, at.domain, slot_named(stag_named(h, payload)));
    let opcode = head.opcode;
    let buffer = head.buffer;
    judge_untagged_segment(w, at.domain as u64, q, opcode, buffer, h, payload)
}
