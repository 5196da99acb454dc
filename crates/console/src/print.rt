// Printing to standard output, by the library `io` and not by a handle of the runtime: that would rest on one
// C function more. What is written no contract can say, and a write that fails is passed over.
use crate::space;
use std::fmt;
use std::fmt::{Display, Formatter, Write};

// The number of standard output.
const STDOUT_FILENO: i32 = 1;

// How many bytes wait to be written at most.
const ROOM: usize = 1_024;

// Standard output, as what values are formatted to. They come in pieces of a few bytes, down to single digits, so
// the pieces wait here and go out together: a write costs far more than a copy.
#[derive(Drop)]
struct Output {
    waiting: [u8; ROOM],
    used: usize,
}

impl Output {
    fn new() -> Self {
        Output {
            waiting: [0; ROOM],
            used: 0,
        }
    }

    // Writes what waits.
    fn flush(&mut self) {
        first(self.used, &self.waiting);
        self.used = 0;
    }
}

impl Write for Output {
    fn write_str(&mut self, s: &str) -> fmt::Result {
        let piece = s.as_bytes();
        if ROOM.saturating_sub(self.used) < piece.len() {
            self.flush();
        }
        if ROOM < piece.len() {
            text(piece);
        } else {
            fields::copy_in(&mut self.waiting, self.used, piece);
            self.used = self.used.saturating_add(piece.len());
        }
        Ok(())
    }
}

// The bytes as they are.
pub fn text(b: &[u8]) {
    io::write_all(STDOUT_FILENO, b);
}

// The first `n` bytes, or all of them if there are fewer.
pub fn first(n: usize, b: &[u8]) {
    let k = space::within(n, b);
    text(&b[..k]);
}

// A value, as it is displayed.
pub fn value<D: Display + Drop>(shown: D) {
    let mut output = Output::new();
    let _ = output.write(shown);
    output.flush();
}

// The same on a line.
pub fn line<D: Display + Drop>(shown: D) {
    let mut output = Output::new();
    let _ = output.writeln(shown);
    output.flush();
}

// Bytes that are displayed as two hexadecimal digits each.
#[derive(Clone, Copy)]
pub struct Hex<'a>(pub &'a [u8]);

impl Display for Hex<'_> {
    fn fmt<W: Write>(&self, f: &mut Formatter<W>) -> fmt::Result {
        for byte in self.0 {
            write!(f, "{byte:02x}")?;
        }
        Ok(())
    }
}
