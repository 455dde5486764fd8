// Where a stream stands, and whether a call can work on it.
ghost use Rattle.std.specs.Prelude.{◌≡◌};
ghost use Rattle.rdmap.specs.Phase.{is_closed, readiness, phase_of, ended_phase};

use ddp::refusal::Refusal;
use wire::refusal::LocalRefusal;

// Where a stream stands: 0 closed; 1 open; 2 ended by a refusal of the peer's bytes, which stands
// beside it; 3 ended by the peer's Terminate. One that is ended is still open until it is closed. The
// refusal is zeros but in 2.
// Kept: numbers and no enum, since a device that a C program holds may have any of them (`phase_in` of `block`).
#[repr(C)]
#[derive(Clone, Copy)]
pub struct Phase {
    pub state: u8,
    pub refusal: Refusal,
}

const NO_REFUSAL: Refusal = Refusal {
    number: 0,
    layer: 0,
    etype: 0,
    code: 0,
};

// The phase of a state without a refusal.
pub fn phase_of(state: u8) -> Phase
    ensures { result ≡ phase_of state }
{
    Phase {
        state,
        refusal: NO_REFUSAL,
    }
}

// The phase of a stream that a refusal of the peer's bytes ended.
pub fn ended_by(refusal: Refusal) -> Phase
    ensures { result ≡ ended_phase refusal }
{
    Phase { state: 2, refusal }
}

impl Phase {
    // Whether it is that of a closed stream.
    pub fn is_closed(self) -> bool
        ensures { result ≡ is_closed self }
    {
        self.state == 0
    }

    // Whether the stream is open and not ended, and so can be worked on.
    pub fn ready(self) -> Result<(), LocalRefusal>
        ensures { result ≡ readiness self }
    {
        match self.state {
            0 => Err(LocalRefusal::NotOpen),
            1 => Ok(()),
            _ => Err(LocalRefusal::StreamEnded),
        }
    }
}
