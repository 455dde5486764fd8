// The reader of FPDUs, for a C program or one in Rust that has frames of its own to look at. It looks at no
// device.
ghost use Rattle.std.specs.Prelude.{◌≡◌};
ghost use Rattle.mpa.specs.Fpdu.{fpdu_read};
ghost use Rattle.rnic_c.specs.Startup.{is_set};
ghost use Rattle.rnic_c.specs.Framing.{fpdu_words};

use mpa::fpdu::read_fpdu;
use mpa::{FpduFault, FpduRead};

// The words of what was read.
fn fpdu_words(read: Result<FpduRead, FpduFault>) -> [u64; 4]
    ensures { result ≡ fpdu_words read }
{
    match read {
        Err(fault) => [0, fault.number() as u64, 0, 0],
        Ok(FpduRead::Wait(n)) => [5, n as u64, 0, 0],
        Ok(FpduRead::Taken { total, start, len }) => [6, total as u64, start as u64, len as u64],
    }
}

// Reads the first FPDU of bytes, with the CRC off where crc is 0 and else on, into the words: a kind, and what
// goes with it.
#[unsafe(no_mangle)]
pub extern "C" fn rnic_c_fpdu_read(crc: u64, bytes: &[u8], answer: &mut [u64; 4])
    ensures { answer.new ≡ fpdu_words (fpdu_read (is_set crc) bytes.now) }
{
    *answer = fpdu_words(read_fpdu(crc != 0, bytes));
}
