// The lines of a listing, read off the head and the body of a pool.
ghost use Rattle.format.specs.Refusal.{number};
ghost use Rattle.lines.specs.Line.{first_n, refused_n};
ghost use Rattle.lines.specs.Opened.{line_text, tree_text, trees_text};
ghost use Rattle.lines.specs.Writer.{HasRoom, Wrote};

use super::text::Writer;
use format::refusal::Refusal;
use slots::head::Head;
use slots::record::record_at;
use tree::dir::Dir;
use tree::node::{get_balance, get_parent};
use tree::walk::{first, walk_dir};

// A pool that is read: its head, and the bytes behind it.
#[derive(Clone, Copy)]
pub struct Opened<'p> {
    pub head: Head,
    pub body: &'p [u8],
}

impl Writer<'_> {
    // The line of a pool that is refused: the refusal's number.
    pub fn refused(&mut self, why: Refusal)
        requires { HasRoom self.old (refused_n (number why)) }
        ensures { Wrote self.old (refused_n (number why)) self.new }
    {
        self.text(b"refused ");
        self.field(u8::from(why) as u64, b'\n');
    }

    // N, T, live records, text used, next stamp.
    pub fn first_line(&mut self, head: &Head)
        requires { HasRoom self.old (first_n head.now) }
        ensures { Wrote self.old (first_n head.now) self.new }
    {
        let n = head.numbers;
        self.text(b"pool ");
        self.fields(&[n.slots as u64, n.trees as u64, n.live as u64, n.used as u64]);
        self.field(n.next as u64, b'\n');
    }

    // Tree, key, slot, stamp, parent slot, balance and name of slot x, which is in tree t.
    fn line(&mut self, pool: &Opened<'_>, t: u8, x: u16)
        requires { HasRoom self.old (line_text pool.now t x) }
        ensures { Wrote self.old (line_text pool.now t x) self.new }
    {
        let body = pool.body;
        let v = record_at(body, x);
        self.fields(&[
            t as u64,
            v.key,
            x as u64,
            v.stamp as u64,
            get_parent(body, x) as u64,
            get_balance(body, x) as u64,
        ]);
        let text = format::record::SIZE * (pool.head.numbers.slots as usize);
        self.name(body, text + v.start as usize, v.len as usize);
        self.byte(b'\n');
    }

    // The lines of tree t in the order of its keys: from its first record to the right, as many as
    // it has.
    #[tactic(auto, using(crate::proofs::LineSteps::line_turns))]
    fn tree(&mut self, pool: &Opened<'_>, t: u8)
        requires { HasRoom self.old (tree_text pool.now t) }
        ensures { Wrote self.old (tree_text pool.now t) self.new }
    {
        let tree = pool.head.tree(t);
        let mut x = first(pool.body, tree);
        for _ in 0..tree.count {
            self.line(pool, t, x);
            x = walk_dir(pool.body, x, Dir::Right);
        }
    }

    // The lines of all trees; a tree that the pool does not have is empty in its head.
    #[tactic(auto, using(crate::proofs::LineSteps::tree_turns))]
    pub fn trees(&mut self, pool: &Opened<'_>)
        requires { HasRoom self.old (trees_text pool.now) }
        ensures { Wrote self.old (trees_text pool.now) self.new }
    {
        // by the number, which each of a tree's lines says
        for t in 1..=format::limit::LAST_TREE {
            self.tree(pool, t);
        }
    }
}
