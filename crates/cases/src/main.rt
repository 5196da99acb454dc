// Runs stored calls of the doors and prints what they return. The calls come from standard input, one
// behind the other until it ends; what is printed is compared with the file `stdout` beside src/.
// Assumes nothing: a call that makes no sense is cut to the buffers or passed over.
//
// One pool is kept in a buffer of the largest size, with the length in use. A call is a kind (u8) and
// its fields, little-endian:
//
// | kind      | fields                                                | printed                              |
// |-----------|-------------------------------------------------------|--------------------------------------|
// | 1 create  | u32 N, u32 T, u32 X, u32 length, from then on in use  | `create CODE`                        |
// | 2 batch   | u32 length, u32 length of the answers, the batch      | `batch CODE ANSWERED`, each answer,  |
// |           |                                                       | `rest COUNT`                         |
// | 3 check   |                                                       | `check CODE`                         |
// | 4 name    | u8 tree, u16 slot, u32 stamp                          | `name HEX`, or `name`                |
// | 5 listing |                                                       | the listing                          |
// | 6 title   | u16 length, the bytes                                 | the bytes, on a line                 |
// | 7 damage  | u32 place, u8 byte, which is stored there             | nothing                              |
//
// An answer's line is `code kind slot stamp key start length`. The buffer of the answers has 255s when
// the door is called, and COUNT is how many of its bytes behind the answers are still 255.
#![tactic(auto)]

use batch::door::batch;
use console::answer::Answer;
use console::print::Hex;
use console::{print, read, space};
use create::create::create;
use format::{answer, refusal};
use judge::verdict::check;
use lines::listing;
use name::name::name;

// The most calls that are run.
const CALLS: u32 = 100_000;

// The kinds of calls, by their numbers. An input that has ended reads as the end.
#[derive(Clone, Copy, PartialEq, Eq)]
enum Call {
    End,
    Create,
    Batch,
    Check,
    Name,
    Listing,
    Title,
    Damage,
}

// A number that no kind of call has.
#[derive(Clone, Copy, PartialEq, Eq)]
struct UnknownCall(u8);

impl TryFrom<u8> for Call {
    type Error = UnknownCall;

    fn try_from(kind: u8) -> Result<Call, UnknownCall> {
        match kind {
            0 => Ok(Call::End),
            1 => Ok(Call::Create),
            2 => Ok(Call::Batch),
            3 => Ok(Call::Check),
            4 => Ok(Call::Name),
            5 => Ok(Call::Listing),
            6 => Ok(Call::Title),
            7 => Ok(Call::Damage),
            _ => Err(UnknownCall(kind)),
        }
    }
}

// The length in use from now on.
fn next_create(space: &mut [u8]) -> usize {
    let n = read::next();
    let t = read::next();
    let x = read::next();
    let length = read::next::<u32>() as usize;
    let used = space::within(length, space);
    let code = refusal::code(create(n, t, x, &mut space[..used]));
    print::line(format_args!("create {code}"));
    length
}

// The first `count` answers, as far as there are so many.
fn print_answers(answers: &[u8], count: usize) {
    for row in answers.chunks_exact(answer::SIZE).take(count) {
        let told = Answer::read(row, 0);
        print::line(format_args!("{told} {} {}", told.start, told.len));
    }
}

// What the batch `w` does to the pool `p`, with `answers` as its answers.
fn run_batch(p: &mut [u8], w: &[u8], answers: &mut [u8]) {
    let outcome = batch(p, w, answers);
    let code = refusal::code(outcome);
    let answered = outcome.unwrap_or(0) as usize;
    print::line(format_args!("batch {code} {answered}"));
    print_answers(answers, answered);
    let behind = answers.iter().skip(answer::SIZE * answered);
    let untouched = behind.filter(|byte| **byte == 255).count();
    print::line(format_args!("rest {untouched}"));
}

// `w` is the space for the batch. What the answers do not cover of their space stays 255.
fn next_batch(p: &mut [u8], w: &mut [u8]) {
    let length = read::next::<u32>() as usize;
    let room = read::next::<u32>() as usize;
    let n = read::part(length, w);
    let mut answers = space::marked_answers();
    let k = space::within(room, &answers);
    run_batch(p, &w[..n], &mut answers[..k]);
}

fn print_check(p: &[u8]) {
    let code = refusal::code(check(p));
    print::line(format_args!("check {code}"));
}

fn next_name(p: &[u8]) {
    let tree = read::next();
    let slot = read::next();
    let stamp = read::next();
    let part = name(p, tree, slot, stamp);
    if part.is_empty() {
        print::line("name");
    } else {
        print::line(format_args!("name {}", Hex(part)));
    }
}

fn print_listing(p: &[u8]) {
    let mut text = space::text();
    let n = listing(p, &mut text);
    print::first(n, &text);
}

// `w` is the space for the title.
fn next_title(w: &mut [u8]) {
    let length = read::next::<u16>() as usize;
    let n = read::part(length, w);
    print::text(&w[..n]);
    print::line("");
}

// A place outside the pool changes nothing.
fn damage(p: &mut [u8]) {
    let place = read::next::<u32>() as usize;
    let byte = read::next::<u8>();
    fields::put(p, place, byte);
}

// A call of the given kind, with `used` as the length in use; the length in use from now on.
fn act(call: Call, space: &mut [u8], w: &mut [u8], used: usize) -> usize {
    let n = space::within(used, space);
    match call {
        Call::End => {}
        Call::Create => return next_create(space),
        Call::Batch => next_batch(&mut space[..n], w),
        Call::Check => print_check(&space[..n]),
        Call::Name => next_name(&space[..n]),
        Call::Listing => print_listing(&space[..n]),
        Call::Title => next_title(w),
        Call::Damage => damage(&mut space[..n]),
    }
    used
}

// The calls in turn, until the input ends. One of an unknown kind is passed over.
fn run(space: &mut [u8], w: &mut [u8]) {
    let mut used = 0;
    for _ in 0..CALLS {
        match Call::try_from(read::next::<u8>()) {
            Ok(Call::End) => return,
            Ok(call) => used = act(call, space, w, used),
            Err(_) => {}
        }
    }
}

fn main() {
    let mut space = space::pool();
    let mut w = space::input();
    run(&mut space, &mut w);
}
