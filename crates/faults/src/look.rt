// What a line's bytes show before its words are looked at. A command has printable ASCII alone, so a line
// with another byte is `bad` whatever its words are.
ghost use Rattle.std.specs.Prelude.{◌≡◌, length, take_while};
ghost use Rattle.script.specs.Word.{past};
ghost use Rattle.script.specs.Number.{between};
ghost use Rattle.faults.specs.Look.{ends_in_cr, look_of};

// The last byte is a carriage return; or the first byte that is not printable is a tab, or another, and its
// place.
#[derive(Drop)]
pub enum Look {
    Carriage,
    Tab(usize),
    Strange(usize),
}

// Whether a byte is one of those from low to high.
fn is_between(b: u8, low: u8, high: u8) -> bool
    ensures { result ≡ between low high b }
{
    low <= b && b <= high
}

// The first place whose byte is not one of those from low to high, or the bytes' end.
#[tactic(auto, using(crate::proofs::Finding::passed))]
pub fn past_between(bytes: &[u8], low: u8, high: u8) -> usize
    ensures { result ≡ past (between low high) bytes.now 0 }
{
    leading(bytes, low, high)
}

// How many bytes from the first on are from low to high.
fn leading(bytes: &[u8], low: u8, high: u8) -> usize
    ensures { result ≡ length (take_while (between low high) bytes.now) }
{
    bytes
        .iter()
        .take_while(|b| is_between(**b, low, high))
        .count()
}

// Whether the last byte is a carriage return.
#[tactic(auto, unfolding(crate::specs::Look::ends_in_cr))]
fn ends_in_cr(line: &[u8]) -> bool
    ensures { result ≡ ends_in_cr line.now }
{
    if line.is_empty() {
        return false;
    }
    line[line.len() - 1] == b'\r'
}

// What a line's bytes show, if anything.
#[tactic(auto, unfolding(crate::specs::Look::look_of))]
pub fn look_at(line: &[u8]) -> Option<Look>
    ensures { result ≡ look_of line.now }
{
    if ends_in_cr(line) {
        return Some(Look::Carriage);
    }
    let i = past_between(line, 32, 126);
    if line.len() <= i {
        return None;
    }
    if line[i] == b'\t' {
        return Some(Look::Tab(i));
    }
    Some(Look::Strange(i))
}
