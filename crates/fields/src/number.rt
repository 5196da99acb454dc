// Little-endian numbers of 1, 2, 4 and 8 bytes in a byte slice: one trait for their types, and a load
// and a store for them all. A wide load or store is two of half the width, so that one law over the
// width proves them all; compiled, each is one load or store behind one comparison. `from_le_bytes` would
// want the bytes as an array, named one by one, and a law for each width.
ghost use Rattle.std.specs.Prelude.{◌≡◌, ◌+◌, ◌≤◌, ℕ, length};
ghost use Rattle.fields.specs.Number.{get_le, put_le};

use super::part::within;

// A type of numbers that stand in `WIDTH` bytes. The loads and stores here are those within the
// slice; `get` and `put` are for every place.
pub trait Number: Copy + Default {
    ghost WIDTH: { ℕ };

    const WIDTH: usize;

    ghost value: { Self → ℕ };

    fn load(b: &[u8], at: usize) -> Self
        requires { at + WIDTH ≤ length b.now }
        ensures { value result ≡ get_le WIDTH b.now at };

    fn store(self, b: &mut [u8], at: usize)
        requires { at + WIDTH ≤ length b.old }
        ensures { b.new ≡ put_le WIDTH b.old at (value self) };

    ghost default_is_zero: { (v : Self) → Self.is_default v → value v ≡ 0 };
}

impl Number for u8 {
    ghost WIDTH = { 1 };

    const WIDTH: usize = 1;

    ghost value = { λ v. v };

    ghost default_is_zero = { λ v is_zero. is_zero };

    #[inline(always)]
    fn load(b: &[u8], at: usize) -> u8 {
        b[at]
    }

    #[inline(always)]
    fn store(self, b: &mut [u8], at: usize) {
        b[at] = self;
    }
}

impl Number for u16 {
    ghost WIDTH = { 2 };

    const WIDTH: usize = 2;

    ghost value = { λ v. v };

    ghost default_is_zero = { λ v is_zero. is_zero };

    #[inline(always)]
    fn load(b: &[u8], at: usize) -> u16 {
        u8::load(b, at) as u16 + u8::load(b, at + 1) as u16 * 256
    }

    #[inline(always)]
    fn store(self, b: &mut [u8], at: usize) {
        ((self % 256) as u8).store(b, at);
        ((self / 256) as u8).store(b, at + 1);
    }
}

impl Number for u32 {
    ghost WIDTH = { 4 };

    const WIDTH: usize = 4;

    ghost value = { λ v. v };

    ghost default_is_zero = { λ v is_zero. is_zero };

    #[inline(always)]
    fn load(b: &[u8], at: usize) -> u32 {
        u16::load(b, at) as u32 + u16::load(b, at + 2) as u32 * 65_536
    }

    #[inline(always)]
    fn store(self, b: &mut [u8], at: usize) {
        ((self % 65_536) as u16).store(b, at);
        ((self / 65_536) as u16).store(b, at + 2);
    }
}

impl Number for u64 {
    ghost WIDTH = { 8 };

    const WIDTH: usize = 8;

    ghost value = { λ v. v };

    ghost default_is_zero = { λ v is_zero. is_zero };

    #[inline(always)]
    fn load(b: &[u8], at: usize) -> u64 {
        u32::load(b, at) as u64 + u32::load(b, at + 4) as u64 * 4_294_967_296
    }

    #[inline(always)]
    fn store(self, b: &mut [u8], at: usize) {
        ((self % 4_294_967_296) as u32).store(b, at);
        ((self / 4_294_967_296) as u32).store(b, at + 4);
    }
}

// The number at `at`; 0 if it does not lie within `b`.
#[inline(always)]
pub fn get<T: Number>(b: &[u8], at: usize) -> T
    ensures { T.value result ≡ get_le T.WIDTH b.now at }
{
    if within(b, at, T::WIDTH) {
        T::load(b, at)
    } else {
        T::default()
    }
}

// Stores `v` at `at`; nothing if it does not lie within `b`.
#[inline(always)]
pub fn put<T: Number>(b: &mut [u8], at: usize, v: T)
    ensures { b.new ≡ put_le T.WIDTH b.old at (T.value v) }
{
    if within(b, at, T::WIDTH) {
        v.store(b, at);
    }
}
