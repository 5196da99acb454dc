// Reading, by the library `io`, which reads until a buffer is full or the input ends and says how much that
// was. What is read no contract can say; where bytes are missing, the buffer keeps what it had.
ghost use Rattle.std.specs.Prelude.{◌≡◌, min, length};
ghost use Rattle.io.specs.Counts.{IsPrefixLen};

use crate::space;
use fields::Number;

// The number of standard input.
const STDIN_FILENO: i32 = 0;

// Reads until the buffer is full or the input ends: how many bytes it put at the buffer's start.
pub fn all(b: &mut [u8]) -> usize
    ensures { IsPrefixLen result b.new }
{
    io::read_full(STDIN_FILENO, b)
}

// Reads `n` bytes to the start of the buffer, or as many as it takes: how many that is, whether the input
// had them or not. The bytes are counted again once they are read, since what is known of a count is about
// the bytes as they were.
pub fn part(n: usize, b: &mut [u8]) -> usize
    ensures prefix_len { IsPrefixLen result b.new }
    ensures count { result ≡ min n (length b.new) }
{
    let k = space::within(n, b);
    io::read_full(STDIN_FILENO, &mut b[..k]);
    space::within(n, b)
}

// The next number of the input, little-endian; 0 in place of bytes that are missing. No type's numbers are
// wider than the buffer.
pub fn next<T: Number>() -> T {
    let mut b = [0u8; 8];
    part(T::WIDTH, &mut b);
    fields::get(&b, 0)
}
