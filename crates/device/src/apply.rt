// What a verdict does with a stream and with the domain's bytes: the payload is placed, and the groups that
// changed are stored.
ghost use Rattle.std.specs.Prelude.{◌≡◌, ◌<◌, Ok, None};
ghost use Rattle.rdmap.specs.Stream.{ended_by};
ghost use Rattle.domain.specs.Domain.{with_windows};
ghost use Rattle.arrival.specs.Parts.{killed, applied_bytes, parts_applied};
ghost use Rattle.rnic.specs.Rnic.{domain_at, with_domain};
ghost use Rattle.block.specs.Device.{rnic_at};
ghost use Rattle.block.specs.Exchange.{stream_of, with_stream_of};
ghost use Rattle.device.specs.Lifted.{lifted_of, OfTagged};

use crate::window::drop_slot;
use arrival::parts::sent_event;
use arrival::placing::place_from;
use arrival::{Answer, Event};
use block::phase::store_phase;
use block::reads::{load_reads, store_reads};
use block::sends::{load_sends, store_sends};
use block::terminates::{load_terminates, store_terminates};
use ddp::refusal::Refusal;
use rdmap::message::{Invalidate, Verdict};
use rdmap::phase::{ended_by, phase_of};
use slots::place::{StreamPlace, WindowPlace};
use wire::refusal::LocalRefusal;

// The window that a Send invalidated is dead.
fn kill(words: &mut [u64; 945], domain: usize, which: Invalidate)
    requires { domain < 4 }
    ensures { rnic_at words.new ≡ with_domain (rnic_at words.old) domain (with_windows (domain_at (rnic_at words.old) domain) (killed which (domain_at (rnic_at words.old) domain).windows)) }
{
    if let Some((slot, _)) = which {
        if slot < 16 {
            let _ = drop_slot(words, WindowPlace { domain, slot });
        }
    }
}

// Ends the stream of a domain's slot by a refusal of the peer's bytes.
pub(crate) fn end(
    words: &mut [u64; 945],
    at: StreamPlace,
    refusal: Refusal,
) -> Result<Answer, LocalRefusal>
    ensures { (result ≡ Ok (Answer.Ended refusal)) × (rnic_at words.new ≡ with_stream_of (rnic_at words.old) at.domain at.slot (ended_by (stream_of (rnic_at words.old) at.domain at.slot) refusal)) }
{
    store_phase(words, at.domain, at.slot, ended_by(refusal));
    Ok(Answer::Ended(refusal))
}

// An FPDU is taken with no event.
fn taken(total: usize) -> Result<Answer, LocalRefusal>
    ensures { result ≡ Ok (Answer.Taken total None) }
{
    Ok(Answer::Taken { total, event: None })
}

// Does what a verdict on an untagged segment says with the stream of a domain's slot, and with the domain's
// bytes, which start at from; and answers it.
pub(crate) fn apply(
    words: &mut [u64; 945],
    stream: StreamPlace,
    total: usize,
    from: u32,
    store: &mut [u8],
    verdict: Result<Verdict, Refusal>,
    payload: &[u8],
) -> Result<Answer, LocalRefusal>
    ensures { (result ≡ (parts_applied (stream_of (rnic_at words.old) stream.domain stream.slot) total verdict).answer) × (rnic_at words.new ≡ lifted_of (rnic_at words.old) stream.domain stream.slot (parts_applied (stream_of (rnic_at words.old) stream.domain stream.slot) total verdict)) × (store.new ≡ applied_bytes from verdict payload.now store.old) }
{
    match verdict {
        Err(refusal) => end(words, stream, refusal),
        Ok(Verdict::Nothing) => taken(total),
        Ok(Verdict::Write(at)) => {
            place_from(store, from, at, payload);
            taken(total)
        }
        Ok(
            Verdict::SendMore {
                at,
                opcode,
                taken: count,
            },
        ) => {
            place_from(store, from, at, payload);
            let sends = load_sends(words, stream.domain, stream.slot);
            store_sends(
                words,
                stream.domain,
                stream.slot,
                sends.sending(opcode, count),
            );
            taken(total)
        }
        Ok(
            Verdict::SendLast {
                at,
                opcode,
                start,
                len,
                invalidate: which,
            },
        ) => {
            place_from(store, from, at, payload);
            let sends = load_sends(words, stream.domain, stream.slot);
            store_sends(words, stream.domain, stream.slot, sends.sent());
            kill(words, stream.domain, which);
            let event = sent_event(start, len, opcode, which);
            Ok(Answer::Taken { total, event })
        }
        Ok(Verdict::Read(read)) => {
            let reads = load_reads(words, stream.domain, stream.slot);
            store_reads(words, stream.domain, stream.slot, reads.queued(read));
            taken(total)
        }
        Ok(Verdict::Terminate { layer, etype, code }) => {
            let terminates = load_terminates(words, stream.domain, stream.slot);
            store_phase(words, stream.domain, stream.slot, phase_of(3));
            store_terminates(words, stream.domain, stream.slot, terminates.risen());
            Ok(Answer::Taken {
                total,
                event: Some(Event::Terminated { layer, etype, code }),
            })
        }
    }
}

// The same for a tagged segment, which is refused, empty or written: apart from the rest, since it has to be
// fast. The last arm is never reached.
pub(crate) fn apply_tagged(
    words: &mut [u64; 945],
    stream: StreamPlace,
    total: usize,
    from: u32,
    store: &mut [u8],
    verdict: Result<Verdict, Refusal>,
    payload: &[u8],
) -> Result<Answer, LocalRefusal>
    requires { OfTagged verdict }
    ensures { (result ≡ (parts_applied (stream_of (rnic_at words.old) stream.domain stream.slot) total verdict).answer) × (rnic_at words.new ≡ lifted_of (rnic_at words.old) stream.domain stream.slot (parts_applied (stream_of (rnic_at words.old) stream.domain stream.slot) total verdict)) × (store.new ≡ applied_bytes from verdict payload.now store.old) }
{
    match verdict {
        Err(refusal) => end(words, stream, refusal),
        Ok(verdict) => match verdict {
            Verdict::Nothing => taken(total),
            Verdict::Write(at) => {
                place_from(store, from, at, payload);
                taken(total)
            }
            _ => taken(0),
        },
    }
}
