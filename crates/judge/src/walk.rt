// The check of one tree: check_link tests the record that a link leads to, check_record the two links of a
// record, and they call each other. The height that a part is to have is handed down: it falls by one with each
// record, and by one more on the side that the balance calls lower, so that in a sound tree all links end at
// height 0. Of a good part they tell the number of its records.
ghost use Rattle.std.specs.Prelude.{◌≡◌, ◌&&◌, true, ℕ, ◌*◌, ◌≤◌, length};
ghost use Rattle.meaning.specs.Layout.{concat};
ghost use Rattle.judge.specs.Check.{link_n, found, told, row_n, rises_n, height_n, pick_n, fits_n, higher_in};

use super::rows::Records;
use format::{balance, limit, record};

// A record's links, parent, balance and tree are one word of eight bytes; parent and tree stand in it so high.
const WORD_PARENT: u64 = 4_294_967_296;

const WORD_TREE: u64 = 72_057_594_037_927_936;

// A tree among the records of a pool. A number of eight bytes, so that a copy has no gaps.
#[derive(Clone, Copy)]
struct Tree<'a> {
    records: Records<'a>,
    number: u64,
    ghost byte: { number ≤ 255 },
}

// The part of a tree whose keys lie after that of record lo and before that of record hi; 0 for no bound, as a
// link has 0 for no record: each test of a key is one of numbers.
#[derive(Clone, Copy)]
struct Part<'a> {
    tree: Tree<'a>,
    lo: u64,
    hi: u64,
    ghost low: { lo ≤ length tree.records.rows.now },
    ghost high: { hi ≤ length tree.records.rows.now },
}

// A record in a part.
#[derive(Clone, Copy)]
struct Record<'a> {
    part: Part<'a>,
    x: u64,
    ghost some: { 1 ≤ x },
    ghost inside: { x ≤ length part.tree.records.rows.now },
}

// The link of a record on its higher side, the left one if neither is.
fn higher(row: &[u8; record::SIZE]) -> u64
    ensures { result ≡ higher_in row.now }
{
    let link = if fields::get::<u8>(row, record::BALANCE) == balance::RIGHT {
        record::RIGHT
    } else {
        record::LEFT
    };
    fields::get::<u16>(row, link) as u64
}

// One of two numbers, as the link x leads to a record or to none: a choice without a branch.
fn pick(x: u64, some: u64, none: u64) -> u64
    ensures { result ≡ pick_n x some none }
{
    if x == 0 { none } else { some }
}

impl<'a> Tree<'a> {
    // The bytes of record x.
    fn row(self, x: u64) -> &'a [u8; record::SIZE]
        requires { (1 ≤ x) × (x ≤ length self.records.rows.now) }
        ensures { result.now ≡ row_n (concat self.entry.records.rows.now) x }
    {
        &self.records.rows[x as usize - 1]
    }

    // Whether record a comes before record b, if there are both.
    fn rises(self, a: u64, b: u64) -> bool
        requires { (a ≤ length self.records.rows.now) × (b ≤ length self.records.rows.now) }
        ensures { result ≡ rises_n (concat self.entry.records.rows.now) a b }
    {
        if a == 0 || b == 0 {
            return true;
        }
        fields::get::<u64>(self.row(a), record::KEY) < fields::get::<u64>(self.row(b), record::KEY)
    }

    // How many records are on the way from the root down the higher sides. None if it leaves the slots or has more
    // than a sound tree has levels.
    fn height(self, root: u64) -> Option<u64>
        ensures { result ≡ height_n (concat self.entry.records.rows.now) (length self.entry.records.rows.now) 15 0 root }
    {
        let mut x = root;
        for height in 0..limit::LEVELS as u64 + 1 {
            if x == 0 {
                return Some(height);
            }
            if self.records.rows.len() < x as usize {
                return None;
            }
            x = higher(self.row(x));
        }
        None
    }
}

impl<'a> Part<'a> {
    ghost use Rattle.judge.specs.Walk.{is_own_in, has_word_in, link_count};

    // Whether x is a record of this tree with this parent, and lies in the part.
    fn is_own(self, parent: u64, x: u64) -> bool
        ensures { result ≡ is_own_in self.entry parent x }
    {
        let Part { tree, lo, hi } = self;
        if x == 0 || (tree.records.rows.len() as u64) < x {
            return false;
        }
        let own = tree.row(x);
        (fields::get::<u8>(own, record::TREE) as u64 == tree.number)
            & (fields::get::<u16>(own, record::PARENT) as u64 == parent)
            & tree.rises(lo, x)
            & tree.rises(x, hi)
    }

    // Whether the word of record x is this one, and it lies in the part.
    fn has_word(self, x: u64, word: u64) -> bool
        requires { (1 ≤ x) × (x ≤ length self.tree.records.rows.now) }
        ensures { result ≡ has_word_in self.entry x word }
    {
        (fields::get::<u64>(self.tree.row(x), record::LEFT) == word)
            & self.tree.rises(self.lo, x)
            & self.tree.rises(x, self.hi)
    }

    // The link from the record parent to x, which is to lead to a part of this height. One of height 1 or 2 is
    // judged where it hangs.
    #[cycle(check_link_check_record)]
    fn check_link(self, height: u64, parent: u64, x: u64) -> Option<u32>
        requires { (1 ≤ height) × (height ≤ 14) }
        ensures { told result ≡ link_count self.entry height parent x }
    {
        if !self.is_own(parent, x) {
            return None;
        }
        let record = Record { part: self, x };
        if height <= 2 {
            return record.check_twig(height);
        }
        record.check_record(height)
    }
}

impl<'a> Record<'a> {
    ghost use Rattle.judge.specs.Walk.{is_between, twig_count, record_count};

    fn row(self) -> &'a [u8; record::SIZE]
        ensures { result.now ≡ row_n (concat self.entry.part.tree.records.rows.now) self.entry.x }
    {
        self.part.tree.row(self.x)
    }

    // The record, itself good, which is to have the height 1 or 2: each link leads to a leaf or to none.
    // Which it is cannot be foreseen, so nothing branches on it: where there is no leaf, the record itself
    // is asked once more for its own word and bounds.
    fn check_twig(self, height: u64) -> Option<u32>
        requires { (1 ≤ height) × (height ≤ 2) × (is_between self ≡ true) }
        ensures { told result ≡ twig_count self.entry height }
    {
        let x = self.x;
        let Part { tree, lo, hi } = self.part;
        let slots = tree.records.rows.len() as u64;
        let own = self.row();
        let left = fields::get::<u16>(own, record::LEFT) as u64;
        let right = fields::get::<u16>(own, record::RIGHT) as u64;
        let balance = fields::get::<u8>(own, record::BALANCE);
        let left_height = pick(left, 1, 0);
        let right_height = pick(right, 1, 0);
        let inside = (left <= slots) & (right <= slots);
        let even = (left_height + balance as u64 % 2 + 1 == height)
            & (right_height + balance as u64 / 2 + 1 == height);
        if !(inside & (balance <= limit::BALANCE) & even) {
            return None;
        }
        let word = fields::get::<u64>(own, record::LEFT);
        let leaf = tree.number * WORD_TREE + x * WORD_PARENT;
        let left_side = Part {
            tree,
            lo,
            hi: pick(left, x, hi),
        };
        let left_fits = left_side.has_word(pick(left, left, x), pick(left, leaf, word));
        let right_side = Part {
            tree,
            lo: pick(right, x, lo),
            hi,
        };
        let right_fits = right_side.has_word(pick(right, right, x), pick(right, leaf, word));
        if !(left_fits & right_fits) {
            return None;
        }
        Some(1 + (left_height + right_height) as u32)
    }

    // The record, itself good, which is to have this height: its balance and its two links. Balance 1 says that the
    // left side is the lower one, 2 that the right side is.
    #[cycle(check_link_check_record)]
    fn check_record(self, height: u64) -> Option<u32>
        requires { (3 ≤ height) × (height ≤ 14) }
        ensures { told result ≡ record_count self.entry height }
    {
        let x = self.x;
        let Part { tree, lo, hi } = self.part;
        let own = self.row();
        let balance = fields::get::<u8>(own, record::BALANCE);
        if limit::BALANCE < balance {
            return None;
        }
        let left_side = Part { tree, lo, hi: x };
        let left = fields::get::<u16>(own, record::LEFT) as u64;
        let left_count = left_side.check_link(height - 1 - balance as u64 % 2, x, left)?;
        let right_side = Part { tree, lo: x, hi };
        let right = fields::get::<u16>(own, record::RIGHT) as u64;
        let right_count = right_side.check_link(height - 1 - balance as u64 / 2, x, right)?;
        Some(left_count + right_count + 1)
    }
}

// The number of records of this tree, or None if it is bad.
pub fn check_tree(records: Records, number: u8, root: u16) -> Option<u32>
    ensures { told result ≡ found (link_n (concat records.entry.rows.now) (length records.entry.rows.now) number 14 0 root 0 0) }
{
    if root == 0 {
        return Some(0);
    }
    let tree = Tree {
        records,
        number: number as u64,
    };
    let height = tree.height(root as u64)?;
    let whole = Part { tree, lo: 0, hi: 0 };
    let count = whole.check_link(height, 0, root as u64)?;
    if records.rows.len() < count as usize {
        return None;
    }
    Some(count)
}
