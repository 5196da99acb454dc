// Mode 2: a line for each command, with its answer and what it left.
use console::answer::Answer;
use console::{print, space};
use format::{entry, header, record};

// A tree, by its entry of the tree table.
fn print_tree(e: &[u8]) {
    let root = fields::get::<u16>(e, entry::ROOT);
    let count = fields::get::<u16>(e, entry::COUNT);
    print::value(format_args!(" | {root} {count}"));
}

// The record r in its slot, if it is live.
fn print_record(r: &[u8], slot: usize) {
    if fields::get::<u8>(r, record::TREE) == 0 {
        return;
    }
    let key = fields::get::<u64>(r, record::KEY);
    let left = fields::get::<u16>(r, record::LEFT);
    let right = fields::get::<u16>(r, record::RIGHT);
    let parent = fields::get::<u16>(r, record::PARENT);
    let balance = fields::get::<u8>(r, record::BALANCE);
    print::value(format_args!(" | {slot} {key} {left} {right} {parent} {balance}"));
}

// The answer i, counted from 0, and the pool after it.
pub fn line(p: &[u8], answers: &[u8], i: u16) {
    let trees = fields::get::<u16>(p, header::TREES) as usize;
    let slots = fields::get::<u16>(p, header::SLOTS) as usize;
    let table = &p[space::within(header::SIZE, p)..];
    let rows = &table[space::within(entry::SIZE * trees, table)..];
    print::value(Answer::read(answers, i));
    for e in table.chunks_exact(entry::SIZE).take(trees) {
        print_tree(e);
    }
    for (k, r) in rows.chunks_exact(record::SIZE).take(slots).enumerate() {
        print_record(r, k + 1);
    }
    print::line("");
}
