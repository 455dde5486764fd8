// A domain's part of the store.
ghost use Rattle.std.specs.Prelude.{◌≡◌};
ghost use Rattle.memory.specs.Part.{in_part, part_fits};

// The bytes from start up to end are the domain's.
#[repr(C)]
#[derive(Clone, Copy)]
pub struct Part {
    pub start: u32,
    pub end: u32,
}

// Whether some len bytes from start, at least one, lie in the part.
#[tactic(auto, unfolding(crate::specs::Part::in_part))]
pub fn inside(part: Part, start: u64, len: u64) -> bool
    ensures { result ≡ in_part part start len }
{
    let from = u64::from(part.start);
    let end = u64::from(part.end);
    1 <= len && from <= start && start <= end && len <= end - start
}

// Whether the part lies in a store of this size.
pub fn fits_in(part: Part, size: usize) -> bool
    ensures { result ≡ part_fits part size }
{
    part.start <= part.end && part.end as usize <= size
}
