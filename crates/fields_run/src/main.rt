// Stores and reads at the limits of a slice of 16 bytes, and prints what is left: numbers of each
// width, places that lie partly or wholly outside, a copy, zeros and the test for zeros. What it
// prints is compared with the file `stdout` beside src/.
#![tactic(auto)]

use console::print;
use console::print::Hex;
use fields::Number;

// The number at `at`, in hexadecimal, on a line.
fn read<T: Number + Into<u64>>(b: &[u8], at: usize) {
    let value: u64 = fields::get::<T>(b, at).into();
    print::line(format_args!("{value:x}"));
}

// The test for zeros, on a line.
fn test(b: &[u8], at: usize, count: usize) {
    print::line(if fields::all_zero(b, at, count) {
        "zero"
    } else {
        "not zero"
    });
}

// A number of each width.
fn numbers(b: &mut [u8]) {
    print::line("numbers");
    fields::put::<u64>(b, 0, 0x0102030405060708);
    fields::put::<u32>(b, 8, 0x090a0b0c);
    fields::put::<u16>(b, 12, 0x0d0e);
    fields::put::<u8>(b, 15, 0x0f);
    print::line(Hex(b));
}

// Each width read at its last place and at the one after it, which runs over the end.
fn last_places(b: &[u8]) {
    read::<u64>(b, 8);
    read::<u64>(b, 9);
    read::<u32>(b, 12);
    read::<u32>(b, 13);
    read::<u16>(b, 14);
    read::<u16>(b, 15);
    read::<u8>(b, 15);
    read::<u8>(b, 16);
}

// Stores that do not lie wholly within: none changes a byte.
fn outside(b: &mut [u8]) {
    print::line("outside");
    fields::put::<u64>(b, 9, 0xffff_ffff_ffff_ffff);
    fields::put::<u32>(b, 13, 0xffff_ffff);
    fields::put::<u16>(b, 0xffff_ffff_ffff_ffff, 0xffff);
    fields::put::<u8>(b, 16, 0xff);
    fields::copy_in(b, 14, b"abc");
    fields::zero_out(b, 1, 16);
    print::line(Hex(b));
}

// A copy, zeros over some of it, and the test for zeros over words, single bytes and outside.
fn parts(b: &mut [u8]) {
    print::line("parts");
    fields::copy_in(b, 13, b"abc");
    fields::zero_out(b, 2, 12);
    print::line(Hex(b));
    test(b, 2, 12);
    test(b, 1, 12);
    test(b, 2, 13);
    test(b, 16, 0);
    test(b, 9, 8);
}

fn main() {
    let mut space = [0u8; 16];
    let b: &mut [u8] = &mut space;
    numbers(b);
    last_places(b);
    outside(b);
    parts(b);
}
