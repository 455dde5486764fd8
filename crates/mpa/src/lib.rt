// MPA, the framing layer of iWARP (RFC 5044): the FPDU (fpdu, section 4) and the startup frame
// (startup, section 7.1), each written and read. A writer fills a slice that the caller lends; a
// reader says what it found at the start of the bytes at hand, or how many it waits for.
//
// Read `FpduRead` and `StartupRead` first, which the readers answer unless they refuse; a writer answers
// the length of what it wrote. The definitions that the contracts cite are in specs/Fpdu.antt and
// specs/Startup.antt. No public function has a `requires`: each answers whatever comes.
#![tactic(auto)]

ghost use Rattle.std.specs.Prelude.{◌≡◌};
ghost use Rattle.mpa.specs.Fpdu.{fault_number};

pub mod fpdu;
pub mod startup;

// Why an FPDU is refused: its ULPDU is over the limit, or the CRC is on and wrong.
#[derive(Clone, Copy, Debug, PartialEq, Eq)]
pub enum FpduFault {
    UlpduTooLong = 20,
    CrcError = 21,
}

impl FpduFault {
    // Its number in the paper's table.
    #[tactic(auto, unfolding(crate::specs::Fpdu::fault_number))]
    pub fn number(self) -> u8
        ensures { result ≡ fault_number self }
    {
        self as u8
    }
}

// What the first FPDU of some bytes is: not whole yet, with the number of bytes to wait for; or whole,
// with its length and where in it the ULPDU lies.
#[derive(Drop)]
pub enum FpduRead {
    Wait(usize),
    Taken {
        total: usize,
        start: usize,
        len: usize,
    },
}

// What the startup frame at the start of some bytes is, in the same way: whole, it gives its
// length, C, R of a reply, and where the private data lies.
#[derive(Drop)]
pub enum StartupRead {
    Wait(usize),
    Taken {
        total: usize,
        crc: bool,
        declined: bool,
        start: usize,
        len: usize,
    },
}
