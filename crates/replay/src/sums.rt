// Mode 1: a sum for each run.
use console::space;
use format::answer;

// The sum of nothing.
pub const START: u64 = 11_400_714_819_323_198_485;

// Takes a word into the sum: the exclusive or of both, stirred by Marsaglia's three shifts, which lose
// nothing.
pub fn mix(sum: u64, word: u64) -> u64 {
    let a = sum ^ word;
    let b = a ^ (a << 13);
    let c = b ^ (b >> 7);
    c ^ (c << 17)
}

// Takes in the words of `b`.
fn mix_all(sum: u64, b: &[u8]) -> u64 {
    b.chunks_exact(8)
        .fold(sum, |s, word| mix(s, fields::get::<u64>(word, 0)))
}

// Takes in the answer i, counted from 0, and the first `text` bytes of the pool, which stand before its text.
pub fn mix_line(sum: u64, p: &[u8], answers: &[u8], i: u16, text: usize) -> u64 {
    let (rows, _) = answers.as_chunks::<{ answer::SIZE }>();
    let row = rows.get(i as usize).unwrap_or(&[0; answer::SIZE]);
    let n = space::within(text, p);
    mix_all(mix_all(sum, row), &p[..n])
}
