//! Bytes, field by field, and numbers as bytes, the most significant byte first.
ghost use Rattle.std.specs.Prelude.{◌≡◌, ◌+◌, ◌≤◌, length, take, drop};
ghost use Rattle.std.specs.Int.{w64, from_be_bytes, to_be_bytes};

// The next field, of `N` bytes, and the bytes after it.
pub(crate) fn field<const N: usize>(bytes: &[u8]) -> ([u8; N], &[u8])
    requires { N ≤ length bytes.now }
    ensures field { result.0 ≡ take N bytes.now }
    ensures rest { result.1.now ≡ drop N bytes.now }
    ensures len { length result.1.now + N ≡ length bytes.now }
{
    let (front, rest) = bytes.split_at(N);
    let mut field = [0; N];
    field.copy_from_slice(front);
    (field, rest)
}

/// The eight bytes of a number.
pub fn u64_bytes(n: u64) -> [u8; 8]
    ensures bytes { result ≡ to_be_bytes w64 n }
    ensures back { from_be_bytes w64 result ≡ n }
{
    n.to_be_bytes()
}
