// Where a byte is.
ghost use Rattle.std.specs.Prelude.{◌≡◌, ◌==◌, ◌<◌, IfSome, length, position};

use memchr::memchr;

/// Where the byte is first.
pub(crate) fn first_place(byte: u8, bytes: &[u8]) -> Option<usize>
    ensures place { result ≡ position (λ b. b == byte) bytes.now }
    ensures within { IfSome result (λ i. i < length bytes.now) }
{
    memchr(byte, bytes)
}
