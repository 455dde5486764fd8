// Where a stream and a window are: a number is a domain's and a slot's of that domain.
ghost use Rattle.std.specs.Prelude.{◌≡◌, ◌<◌, ◌≤◌, ◌/◌, ◌%◌, IfSome, IfNone};

// A stream by its domain and its slot there.
#[derive(Clone, Copy)]
pub struct StreamPlace {
    pub domain: usize,
    pub slot: usize,
    pub ghost domain_in_range: { domain < 4 },
    pub ghost slot_in_range: { slot < 4 },
}

impl StreamPlace {
    // The place of the stream of a number, none where no stream has it.
    pub fn of(stream: u64) -> Option<StreamPlace>
        ensures found { IfSome result (λ at. (stream ≤ 15) × (at.domain ≡ stream / 4) × (at.slot ≡ stream % 4)) }
        ensures none { IfNone result (15 < stream) }
    {
        if stream <= 15 {
            return Some(StreamPlace {
                domain: (stream / 4) as usize,
                slot: (stream % 4) as usize,
            });
        }
        None
    }
}

// A window by its domain and its slot there.
#[derive(Clone, Copy)]
pub struct WindowPlace {
    pub domain: usize,
    pub slot: usize,
    pub ghost domain_in_range: { domain < 4 },
    pub ghost slot_in_range: { slot < 16 },
}

impl WindowPlace {
    // The place of the window of a number, none where no window has it.
    pub fn of(window: u64) -> Option<WindowPlace>
        ensures found { IfSome result (λ at. (window ≤ 63) × (at.domain ≡ window / 16) × (at.slot ≡ window % 16)) }
        ensures none { IfNone result (63 < window) }
    {
        if window <= 63 {
            return Some(WindowPlace {
                domain: (window / 16) as usize,
                slot: (window % 16) as usize,
            });
        }
        None
    }
}
