// What is answered to a peer that breaks a rule of messages: the rows 33 to 38 of the table of peer
// refusals, in its order, with the layer, error type and code that end the stream.
use ddp::refusal::Refusal;

pub const RDMAP_VERSION: Refusal = Refusal {
    number: 33,
    layer: 0,
    etype: 2,
    code: 0x05,
};

pub const UNEXPECTED_OPCODE: Refusal = Refusal {
    number: 34,
    layer: 0,
    etype: 2,
    code: 0x06,
};

pub const NO_WRITE_RIGHT: Refusal = Refusal {
    number: 35,
    layer: 0,
    etype: 1,
    code: 0x02,
};

pub const INVALIDATE_FOREIGN: Refusal = Refusal {
    number: 36,
    layer: 0,
    etype: 1,
    code: 0x03,
};

pub const INVALIDATE_MISSING: Refusal = Refusal {
    number: 36,
    layer: 0,
    etype: 1,
    code: 0x00,
};

pub const MALFORMED: Refusal = Refusal {
    number: 37,
    layer: 0,
    etype: 2,
    code: 0xFF,
};

pub const SOURCE_FOREIGN: Refusal = Refusal {
    number: 38,
    layer: 0,
    etype: 1,
    code: 0x03,
};

pub const SOURCE_MISSING: Refusal = Refusal {
    number: 38,
    layer: 0,
    etype: 1,
    code: 0x00,
};

pub const SOURCE_WRAP: Refusal = Refusal {
    number: 38,
    layer: 0,
    etype: 1,
    code: 0x04,
};

pub const SOURCE_BOUNDS: Refusal = Refusal {
    number: 38,
    layer: 0,
    etype: 1,
    code: 0x01,
};

pub const NO_READ_RIGHT: Refusal = Refusal {
    number: 38,
    layer: 0,
    etype: 1,
    code: 0x02,
};
