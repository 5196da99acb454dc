// The listing program: reads a pool from standard input and prints its listing. What lies behind the
// first 65,536 bytes is not read: no pool is so long, and the bytes read are then refused.
#![tactic(auto)]

use console::{print, read, space};
use lines::listing;

fn main() {
    let mut pool = space::input();
    let mut text = space::text();
    let n = read::all(&mut pool);
    let length = listing(&pool[..n], &mut text);
    print::first(length, &text);
}
