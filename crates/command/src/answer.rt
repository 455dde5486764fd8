// The answers, each put together in a text.
ghost use Rattle.std.specs.Prelude.{◌≡◌, ◌∷◌, []};
ghost use Rattle.script.specs.Hex.{hex_text};
ghost use Rattle.script.specs.Number.{decimal};
ghost use Rattle.script.specs.Text.{appended};

use script::text::Text;

// Appends a space and a number.
pub fn then_number<const N: usize>(v: u64, text: &mut Text<N>)
    ensures { text.new ≡ appended N (appended N text.old (32 ∷ [])) (decimal v) }
{
    text.put(b" ");
    text.put_number(v);
}

// Appends a space and bytes as hex.
pub fn then_hex<const N: usize>(bytes: &[u8], text: &mut Text<N>)
    ensures { text.new ≡ appended N (appended N text.old (32 ∷ [])) (hex_text bytes.now) }
{
    text.put(b" ");
    text.put_hex(bytes);
}

// `bad`: the line is no command.
pub fn bad<const N: usize>(text: &mut Text<N>) {
    text.put(b"bad");
}

// `refused NUMBER`.
pub fn refused<const N: usize>(number: u8, text: &mut Text<N>) {
    text.put(b"refused");
    then_number(u64::from(number), text);
}

// `wait N`.
pub fn wait<const N: usize>(n: usize, text: &mut Text<N>) {
    text.put(b"wait");
    then_number(n as u64, text);
}

// `wrote N HEX`: a frame that was written, and its length.
pub fn wrote<const N: usize>(frame: &[u8], text: &mut Text<N>) {
    text.put(b"wrote");
    then_number(frame.len() as u64, text);
    then_hex(frame, text);
}

// `ulpdu TOTAL HEX`: the ULPDU of an FPDU of that many bytes.
pub fn ulpdu_read<const N: usize>(total: usize, ulpdu: &[u8], text: &mut Text<N>) {
    text.put(b"ulpdu");
    then_number(total as u64, text);
    then_hex(ulpdu, text);
}

// `startup TOTAL C R HEX`: the flags and private data of a startup frame of that many bytes.
pub fn startup_read<const N: usize>(
    total: usize,
    crc: bool,
    declined: bool,
    private_data: &[u8],
    text: &mut Text<N>,
) {
    text.put(b"startup");
    then_number(total as u64, text);
    then_number(crc as u64, text);
    then_number(declined as u64, text);
    then_hex(private_data, text);
}
