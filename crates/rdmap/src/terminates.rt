// Queue 2: the peer's Terminate.
ghost use Rattle.std.specs.Prelude.{◌≡◌};
ghost use Rattle.rdmap.specs.Terminates.{empty_terminates, risen_terminates, terminate_queue};

use ddp::untagged::{Queue, next_msn};

// The next MSN.
#[repr(C)]
#[derive(Clone, Copy)]
pub struct Terminates {
    pub msn: u32,
}

// The queue with its next MSN.
pub fn empty_terminates(msn: u32) -> Terminates
    ensures { result ≡ empty_terminates msn }
{
    Terminates { msn }
}

impl Terminates {
    // A Terminate has come.
    pub fn risen(self) -> Terminates
        ensures { result ≡ risen_terminates self }
    {
        Terminates {
            msn: next_msn(self.msn),
        }
    }

    // What the queue expects.
    pub fn queue(self) -> Queue
        ensures { result ≡ terminate_queue self }
    {
        Queue {
            msn: self.msn,
            room: true,
            limit: 52,
            taken: 0,
        }
    }
}
