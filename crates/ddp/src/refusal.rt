// Refusals of the peer's bytes, by number in the order of the paper's table.
ghost use Rattle.std.specs.Prelude.{◌≡◌};
ghost use Rattle.ddp.specs.Segment.{framing};

use mpa::FpduFault;

// Those of framing and placement: the rows 20 to 32, each with the layer, error type and code
// with which the stream ends.
// Kept: numbers and no enum, since a device that a C program holds may have any of them (`phase_in` of `block`).
#[repr(C)]
#[derive(Clone, Copy)]
pub struct Refusal {
    pub number: u8,
    pub layer: u8,
    pub etype: u8,
    pub code: u8,
}

// An FPDU is refused by the framing layer's reason.
impl From<FpduFault> for Refusal {
    ghost from_gives = { λ fault r. r ≡ framing fault };

    fn from(fault: FpduFault) -> Refusal {
        match fault {
            FpduFault::UlpduTooLong => ULPDU_TOO_LONG,
            FpduFault::CrcError => CRC_ERROR,
        }
    }
}

pub const ULPDU_TOO_LONG: Refusal = Refusal {
    number: 20,
    layer: 1,
    etype: 0,
    code: 0x00,
};

pub const CRC_ERROR: Refusal = Refusal {
    number: 21,
    layer: 2,
    etype: 0,
    code: 0x02,
};

pub const SEGMENT_TOO_SHORT: Refusal = Refusal {
    number: 22,
    layer: 1,
    etype: 0,
    code: 0x00,
};

pub const TAGGED_VERSION: Refusal = Refusal {
    number: 23,
    layer: 1,
    etype: 1,
    code: 0x04,
};

pub const UNTAGGED_VERSION: Refusal = Refusal {
    number: 23,
    layer: 1,
    etype: 2,
    code: 0x06,
};

pub const STAG_NOT_ASSOCIATED: Refusal = Refusal {
    number: 24,
    layer: 1,
    etype: 1,
    code: 0x02,
};

pub const INVALID_STAG: Refusal = Refusal {
    number: 25,
    layer: 1,
    etype: 1,
    code: 0x00,
};

pub const TO_WRAP: Refusal = Refusal {
    number: 26,
    layer: 1,
    etype: 1,
    code: 0x03,
};

pub const BOUNDS_VIOLATION: Refusal = Refusal {
    number: 27,
    layer: 1,
    etype: 1,
    code: 0x01,
};

pub const INVALID_QN: Refusal = Refusal {
    number: 28,
    layer: 1,
    etype: 2,
    code: 0x01,
};

pub const INVALID_MSN: Refusal = Refusal {
    number: 29,
    layer: 1,
    etype: 2,
    code: 0x03,
};

pub const NO_BUFFER: Refusal = Refusal {
    number: 30,
    layer: 1,
    etype: 2,
    code: 0x02,
};

pub const INVALID_MO: Refusal = Refusal {
    number: 31,
    layer: 1,
    etype: 2,
    code: 0x04,
};

pub const MESSAGE_TOO_LONG: Refusal = Refusal {
    number: 32,
    layer: 1,
    etype: 2,
    code: 0x05,
};
