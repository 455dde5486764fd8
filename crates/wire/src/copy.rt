// Elements of one slice copied to another, bytes cleared, and bytes compared.
ghost use Rattle.std.specs.Prelude.{◌≡◌, ◌+◌, ◌≤◌, length, replicate};
ghost use Rattle.wire.specs.Wire.{put, same};

// Copies all of src into dst from at on.
pub fn copy<T: Copy>(dst: &mut [T], at: usize, src: &[T])
    requires { at + length src.now ≤ length dst.old }
    ensures { dst.new ≡ put dst.old at src.now }
{
    dst[at..at + src.len()].copy_from_slice(src);
}

// Clears the n bytes of dst from at.
pub fn clear(dst: &mut [u8], at: usize, n: usize)
    requires { at + n ≤ length dst.old }
    ensures { dst.new ≡ put dst.old at (replicate n 0) }
{
    dst[at..at + n].fill(0);
}

// Whether the two slices hold the same bytes.
pub fn same(a: &[u8], b: &[u8]) -> bool
    ensures { result ≡ same a.now b.now }
{
    a == b
}
