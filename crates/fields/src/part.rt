// Parts of a byte slice: whether one lies within it, a copy into one, zeros into one, a test for
// zeros. Nothing is assumed of a place or a count: their sum is never formed before it is known to
// fit.
ghost use Rattle.std.specs.Prelude.{◌≡◌, ◌+◌, leb, length, replicate};
ghost use Rattle.fields.specs.Part.{part, splice, zeros};

use super::number::get;

// Whether the `count` bytes from `at` on lie within `b`. How many places such a part can stand at does
// not depend on `at`, so a loop that reads many fields works it out once, and each read is one
// comparison.
#[inline(always)]
pub fn within(b: &[u8], at: usize, count: usize) -> bool
    ensures { result ≡ leb (at + count) (length b.now) }
{
    at < (b.len() + 1).saturating_sub(count)
}

// Copies `src` into `b` from `at` on. By a loop, which compiles to memcpy: `copy_from_slice` compiles to memmove, which
// include/zimatuno.h says to C that the library does without.
pub fn copy_in(b: &mut [u8], at: usize, src: &[u8])
    ensures { b.new ≡ splice b.old at src.now }
{
    if within(b, at, src.len()) {
        for i in 0..src.len() {
            b[at + i] = src[i];
        }
    }
}

// Sets the `count` bytes from `at` on to 0.
pub fn zero_out(b: &mut [u8], at: usize, count: usize)
    ensures { b.new ≡ splice b.old at (replicate count 0) }
{
    if within(b, at, count) {
        b[at..at + count].fill(0);
    }
}

// How many bytes are tested for zeros as a whole.
const BLOCK: usize = 64;

// Whether the bytes are all 0. Most are taken eight at a time as numbers, of which it asks what they have
// set among them all: a run of zeros is read to its end in any case, and a test at each number costs more.
#[inline(always)]
fn are_zero(bytes: &[u8]) -> bool
    ensures { result ≡ zeros bytes.now }
{
    let (words, rest) = bytes.as_chunks::<8>();
    let set = words.iter().fold(0, |set, word| set | get::<u64>(word, 0));
    set == 0 && rest.iter().all(|byte| *byte == 0)
}

// The same block by block, up to the first that has a byte other than 0: what comes behind it costs nothing.
fn each_is_zero(bytes: &[u8]) -> bool
    ensures { result ≡ zeros bytes.now }
{
    let (blocks, rest) = bytes.as_chunks::<BLOCK>();
    blocks.iter().all(|block| are_zero(block)) && are_zero(rest)
}

// Whether the `count` bytes from `at` on are all 0. Inlined, so that a part whose length the caller knows, as that
// of a free record, is tested without a loop.
#[inline(always)]
pub fn all_zero(b: &[u8], at: usize, count: usize) -> bool
    ensures { result ≡ zeros (part b.now at count) }
{
    if !within(b, at, count) {
        return true;
    }
    let bytes = &b[at..at + count];
    if count <= BLOCK {
        are_zero(bytes)
    } else {
        each_is_zero(bytes)
    }
}
