// The listings of several pools, which stand one behind the other in the standard input: a length of
// four bytes, then as many bytes. What it prints is compared with the file `stdout` beside src/, which
// tools/pools.py works out from the layout alone.
#![tactic(auto)]

use console::{print, read, space};
use lines::listing;

// Prints the number of a case and the listing of its pool, by way of `text`.
fn show(number: u64, pool: &[u8], text: &mut [u8]) {
    print::line(format_args!("case {number}"));
    let n = listing(pool, text);
    print::first(n, text);
}

// The cases of the input, of which there are fewer than 100.
fn show_all(input: &[u8], text: &mut [u8]) {
    let mut left = input;
    for number in 1..100 {
        let Some((size, behind)) = left.split_first_chunk::<4>() else {
            return;
        };
        let size = u32::from_le_bytes(*size) as usize;
        let Some((pool, next)) = behind.split_at_checked(size) else {
            return;
        };
        show(number, pool, text);
        left = next;
    }
}

fn main() {
    let mut input = space::input();
    let mut text = space::text();
    let n = read::all(&mut input);
    show_all(&input[..n], &mut text);
}
