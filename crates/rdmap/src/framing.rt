// How the bytes of a stream are read as frames.
ghost use Rattle.std.specs.Prelude.{◌≡◌};
ghost use Rattle.rdmap.specs.Framing.{no_framing, new_framing};

// Whether the frames' CRC is looked at, and how many bytes of an FPDU that is not complete the stream holds.
#[repr(C)]
#[derive(Clone, Copy)]
pub struct Framing {
    pub crc: bool,
    pub held: u32,
}

// Of a closed stream: zeros.
pub fn no_framing() -> Framing
    ensures { result ≡ no_framing }
{
    Framing {
        crc: false,
        held: 0,
    }
}

// Of a stream that is opened with the CRC on or off.
pub fn new_framing(crc: bool) -> Framing
    ensures { result ≡ new_framing crc }
{
    Framing { crc, held: 0 }
}
