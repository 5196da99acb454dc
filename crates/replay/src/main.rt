// Replays runs of commands through the door `batch` and prints what each command answered and what it
// left. The runs come from standard input, one behind the other until it ends. The file `stdout` beside
// src/ has what the original Rust tree answered and left: both files were written by the original's side
// of the comparison (tools/oracle/run FOLDER 1 sample), and nothing of them by this program.
// Assumes nothing: a run that makes no sense is cut to the buffers.
//
// A run, little-endian: u8 mode; u16 N, u16 T, u16 X for `create`; u16 number of batches; then each
// batch, as u16 length and the bytes that the door takes.
//
// Each command is answered for. A cursor lives within one batch, so what command k of a batch has left
// is seen by running the first k of its commands as a batch of their own on a copy of the pool; all of
// them are then run on the pool itself. The first k commands are had by changing three numbers of the
// batch's header: the names are then all that lies behind them.
//
// Mode 2 (shown.rt) prints a line for each command:
//   code kind slot stamp key | root count | slot key left right parent balance | ..
// with one part for each tree and one for each live record. Mode 1 (sums.rt) prints the line `run SUM` for a
// run: a sum, in hexadecimal, that starts from START and takes in, by `mix`, the code of create, and for each
// command the door's code and number answered, the three words of the answer, and all words of the pool
// before its text: header, tree table and records, so every link and balance. A word is eight bytes.
#![tactic(auto)]

mod shown;
mod sums;

use batch::door::batch;
use console::{print, read, space};
use create::create::create;
use format::{command, entry, header, record, refusal};

// The most runs that are run.
const RUNS: u32 = 100_000_000;

// How a run is printed, by its number in the input. An input that has ended reads as the end; a run of another
// mode is run and not printed.
#[derive(Clone, Copy, PartialEq, Eq)]
enum Mode {
    End,
    Sum,
    Lines,
    Silent,
}

impl From<u8> for Mode {
    fn from(mode: u8) -> Mode {
        match mode {
            0 => Mode::End,
            1 => Mode::Sum,
            2 => Mode::Lines,
            _ => Mode::Silent,
        }
    }
}

// A run: how it is printed, where its pool's text starts, how long its pool is, and the sum so far.
#[derive(Clone, Copy)]
struct Run {
    mode: Mode,
    text: usize,
    length: usize,
    sum: u64,
}

impl Run {
    // Runs the first `count` commands of `w` on the pool and answers for the last of them.
    fn first_commands(&mut self, p: &mut [u8], w: &mut [u8], answers: &mut [u8], count: u16) {
        let Some(last) = count.checked_sub(1) else {
            return;
        };
        cut(w, count);
        let outcome = batch(p, w, answers);
        let code = refusal::code(outcome);
        if self.mode != Mode::Lines {
            let told = code as u64 + 256 * (outcome.unwrap_or(0) as u64);
            let sum = sums::mix(self.sum, told);
            self.sum = sums::mix_line(sum, p, answers, last, self.text);
        } else if outcome.is_err() {
            print::line(format_args!("batch {code}"));
        } else {
            shown::line(p, answers, last);
        }
    }

    // Each command of the batch `w`; `spare` takes the copies of the pool.
    fn commands(&mut self, p: &mut [u8], spare: &mut [u8], w: &mut [u8]) {
        let mut answers = space::answers();
        let count = fields::get::<u16>(w, format::batch::COUNT);
        for k in 1..count {
            fields::copy_in(spare, 0, p);
            let n = space::within(self.length, spare);
            self.first_commands(&mut spare[..n], w, &mut answers, k);
        }
        self.first_commands(p, w, &mut answers, count);
    }

    // The next batch of the input.
    fn next_batch(&mut self, p: &mut [u8], spare: &mut [u8], w: &mut [u8]) {
        let length = read::next::<u16>() as usize;
        let n = read::part(length, w);
        self.commands(p, spare, &mut w[..n]);
    }
}

// Makes the batch `w` one of its first `count` commands. A batch of the input has at most 65,535 bytes, so
// the length of its names fits in the lower half of its field.
fn cut(w: &mut [u8], count: u16) {
    let names = format::batch::SIZE + command::SIZE * (count as usize);
    let n = space::within(names, w);
    let left = u16::try_from(w.len() - n).unwrap_or(u16::MAX);
    fields::put(w, format::batch::COUNT, count);
    fields::put(w, format::batch::NAMES, names as u32);
    fields::put(w, format::batch::NAMES_LEN, left);
}

// The run of the given mode.
fn next_run(mode: Mode, space: &mut [u8], spare: &mut [u8], w: &mut [u8]) {
    let n = read::next::<u16>() as u32;
    let t = read::next::<u16>() as u32;
    let x = read::next::<u16>() as u32;
    let count = read::next::<u16>();
    let text = header::SIZE + entry::SIZE * (t as usize) + record::SIZE * (n as usize);
    let length = text + (x as usize);
    let used = space::within(length, space);
    let pool = &mut space[..used];
    let code = refusal::code(create(n, t, x, pool));
    let mut run = Run {
        mode,
        text,
        length,
        sum: sums::mix(sums::START, code as u64),
    };
    for _ in 0..count {
        run.next_batch(pool, spare, w);
    }
    if mode == Mode::Sum {
        print::line(format_args!("run {:016x}", run.sum));
    }
}

fn main() {
    let mut space = space::pool();
    let mut spare = space::pool();
    let mut w = space::input();
    for _ in 0..RUNS {
        let mode = Mode::from(read::next::<u8>());
        if mode == Mode::End {
            return;
        }
        next_run(mode, &mut space, &mut spare, &mut w);
    }
}
