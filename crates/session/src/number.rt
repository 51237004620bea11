// Bytes in a slice by their place. A number of any width is read from them by `from_be_bytes`.
ghost use Rattle.std.specs.Prelude.{◌+◌, ◌≤◌, ◌≡◌, length, take, drop};

// The N bytes from place `at` on. The codec has this too: no function that requires something of
// its caller is public, so neither crate can lend it to the other.
pub(crate) fn bytes_at<const N: usize>(s: &[u8], at: usize) -> [u8; N]
    requires { at + N ≤ length s.now }
    ensures { result ≡ take N (drop at s.now) }
{
    s[at..at + N].try_into().unwrap()
}
