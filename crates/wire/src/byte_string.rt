// Byte strings: comparing two, and copying one into another.
//
// Every function is total: a copy takes what fits.
ghost use Rattle.std.specs.Prelude.{◌≡◌};
ghost use Rattle.wire.specs.Prefix.{pasted, prefixed};
ghost use Rattle.wire.specs.Equal.{same_bytes};

// Tests whether two slices hold the same bytes. It stands for `==` where a contract speaks of `same_bytes`, as the
// checks F1, F4 and R4 do. It is a loop: `==` is a call that is given both addresses, and a parser whose buffer it is
// given stays in memory, each byte of it.
pub fn bytes_eq(a: &[u8], b: &[u8]) -> bool
    ensures compared { result ≡ same_bytes a.now b.now }
{
    if a.len() != b.len() {
        return false;
    }
    for i in 0..a.len() {
        if a[i] != b[i] {
            return false;
        }
    }
    true
}

// Copies as much of `src` as fits into `dst` from place `at` on.
pub fn copy_at(dst: &mut [u8], at: usize, src: &[u8])
    ensures copied { dst.new ≡ pasted dst.old at src.now }
{
    if dst.len() < at {
        return;
    }
    let count = src.len().min(dst.len() - at);
    dst[at..at + count].copy_from_slice(&src[..count]);
}

// Copies as much of `src` as fits into the front of `dst`.
pub fn copy_prefix(dst: &mut [u8], src: &[u8])
    ensures copied { dst.new ≡ prefixed dst.old src.now }
{
    copy_at(dst, 0, src);
}
