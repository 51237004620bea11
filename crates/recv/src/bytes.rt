// Bytes that are copied, and bytes that move up within the lent buffer, with a payload that goes in
// before them.
ghost use Rattle.std.specs.Prelude.{◌≡◌, ◌+◌, ◌≤◌, length};
ghost use Rattle.recv.specs.Laws.Steps.{inserted_of};

// Copies all of `src` into `dst`, which is as long.
// (By index: std's `copy_from_slice` is a call of `memmove`, which a caller in C would have to bring.)
pub(crate) fn copy(dst: &mut [u8], src: &[u8])
    requires { length dst.old ≡ length src.now }
    ensures { dst.new ≡ src.now }
{
    for i in 0..src.len() {
        dst[i] = src[i];
    }
}

// Puts `payload` in at `at`, before the `count` bytes that stand there, which move up. An empty one
// moves nothing.
pub(crate) fn insert(buf: &mut [u8], at: usize, count: usize, payload: &[u8])
    requires { at + length payload.now + count ≤ length buf.old }
    ensures { buf.new ≡ inserted_of buf.old at count payload.now }
{
    let n = payload.len();
    if n == 0 {
        return;
    }
    buf.copy_within(at..at + count, at + n);
    copy(&mut buf[at..at + n], payload);
}
