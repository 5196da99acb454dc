// Buffers, and how much of one is used. What lending an array as a slice needs is its length.
ghost use Rattle.std.specs.Prelude.{◌≡◌, min, length};
ghost use Rattle.console.specs.Filled.{filled};
ghost use Rattle.io.specs.Counts.{IsPrefixLen};

// The lengths of the buffers below; what each has room for stands there.
pub const INPUT: usize = 65_536;

pub const POOL: usize = 41_056;

pub const ANSWERS: usize = 6_144;

pub const WIDE_ANSWERS: usize = 8_192;

pub const TEXT: usize = 655_360;

// A buffer of bytes that are all `byte`.
#[tactic(auto, unfolding(crate::specs::Filled::filled))]
pub fn all_of<const N: usize>(byte: u8) -> [u8; N]
    ensures size { N ≡ length result }
    ensures content { result ≡ filled N byte }
{
    [byte; N]
}

// Room for what is read: no pool, batch or title is so long.
pub fn input() -> [u8; INPUT]
    ensures size { 65_536 ≡ length result }
    ensures content { result ≡ filled 65_536 0 }
{
    all_of(0)
}

// Room for the largest pool: 32 + 8 * 8 + 32 * 1,024 + 8,192 bytes.
pub fn pool() -> [u8; POOL]
    ensures size { 41_056 ≡ length result }
    ensures content { result ≡ filled 41_056 0 }
{
    all_of(0)
}

// Room for the answers of the longest batch: 24 * 256 bytes.
pub fn answers() -> [u8; ANSWERS]
    ensures size { 6_144 ≡ length result }
    ensures content { result ≡ filled 6_144 0 }
{
    all_of(0)
}

// Room for more than the answers of the longest batch, of bytes that are 255, so that what is not written can
// be seen.
pub fn marked_answers() -> [u8; WIDE_ANSWERS]
    ensures size { 8_192 ≡ length result }
    ensures content { result ≡ filled 8_192 255 }
{
    all_of(255)
}

// Room for the longest listing.
pub fn text() -> [u8; TEXT]
    ensures size { 655_360 ≡ length result }
    ensures content { result ≡ filled 655_360 0 }
{
    all_of(0)
}

// How many bytes of the slice the first `n` are: fewer, if it has fewer.
pub fn within(n: usize, b: &[u8]) -> usize
    ensures prefix_len { IsPrefixLen result b.now }
    ensures count { result ≡ min n (length b.now) }
{
    n.min(b.len())
}
