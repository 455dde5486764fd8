// How a message is cut: every payload is filled but the last.
ghost use Rattle.std.specs.Prelude.{◌≡◌};
ghost use Rattle.sender.specs.Cut.{piece_of, ends_in};

// How many of the bytes left go into a payload that has room for so many.
#[tactic(auto, unfolding(crate::specs::Cut::piece_of))]
pub fn piece_of(room: u32, left: u32) -> u32
    ensures { result ≡ piece_of room left }
{
    left.min(room)
}

// Whether nothing is left after it.
#[tactic(auto, unfolding(crate::specs::Cut::ends_in))]
pub fn ends_in(room: u32, left: u32) -> bool
    ensures { result ≡ ends_in room left }
{
    left <= room
}
