// The local refusals: a call that answers one has changed nothing. The paper's table has them by number, and
// docs/refusals.tsv says what each means and what to do.
ghost use Rattle.std.specs.Prelude.{◌≡◌};
ghost use Rattle.wire.specs.Refusal.{refusal_number};

#[derive(Clone, Copy, Debug, PartialEq, Eq)]
pub enum LocalRefusal {
    // A number, key, right or length is out of its range.
    OutOfRange = 1,
    // The store or the rooms that were lent have another length.
    OtherLength = 2,
    NotOpen = 3,
    AlreadyOpen = 4,
    StreamEnded = 5,
    WindowLive = 6,
    WindowNotLive = 7,
    // The key is the last one that the window had.
    KeyAgain = 8,
    // A part, a place, a length or base + length breaks a rule.
    BadPlace = 9,
    // Eight buffers wait.
    BuffersFull = 10,
    NoReadWaits = 11,
    // A ULPDU or private data is over its limit, to be written.
    OverLimit = 12,
    // The output slice is too small.
    NoRoom = 13,
    // A startup frame has a wrong key, revision or length.
    BadStartup = 14,
    // The peer asks for markers.
    Markers = 15,
    // The stream holds bytes of an offer.
    HoldsBytes = 16,
    // A byte is also a write window's or a waiting buffer's.
    SharedByte = 19,
    // Our IRD does not reach the other side's ORD: 2/0/06 in a Terminate.
    IrdTooSmall = 40,
    // No kind of a first message that both sides can do: 2/0/07 in a Terminate.
    NoKind = 41,
}

impl LocalRefusal {
    // Its number in the paper's table.
    #[tactic(auto, unfolding(crate::specs::Refusal::refusal_number))]
    pub fn number(self) -> u8
        ensures { result ≡ refusal_number self }
    {
        self as u8
    }
}
