// One word of a slice stored.
ghost use Rattle.std.specs.Prelude.{◌≡◌, ◌∷◌, [], ◌<◌, length};
ghost use Rattle.wire.specs.Wire.{put};

// Stores one word of dst.
pub(crate) fn store_word(dst: &mut [u64], at: usize, x: u64)
    requires { at < length dst.old }
    ensures { dst.new ≡ put dst.old at (x ∷ []) }
{
    dst[at] = x;
}
