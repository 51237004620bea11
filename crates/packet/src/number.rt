// Bytes in a slice by their place. A number of any width is read from them and written as them,
// most significant byte first, by `from_be_bytes` and `to_be_bytes`.
ghost use Rattle.std.specs.Prelude.{◌+◌, ◌≤◌, ◌≡◌, length, take, drop};
ghost use Rattle.common.specs.Laws.Put.{put};

// The N bytes from place `at` on.
pub(crate) fn bytes_at<const N: usize>(s: &[u8], at: usize) -> [u8; N]
    requires { at + N ≤ length s.now }
    ensures { result ≡ take N (drop at s.now) }
{
    s[at..at + N].try_into().unwrap()
}

// Copies all of src into room from place `at` on.
// (By index: std's `copy_from_slice` is a call of `memmove`, which a caller in C would have to bring.)
pub(crate) fn put_all(room: &mut [u8], at: usize, src: &[u8])
    requires { at + length src.now ≤ length room.old }
    ensures { room.new ≡ put room.old at src.now }
{
    for i in 0..src.len() {
        room[at + i] = src[i];
    }
}
