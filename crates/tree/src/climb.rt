// The climb after an insertion or a removal: from the record whose side has changed its height up to the root, or
// to where the height is as it was. The two climbs differ in what they do at a record, which is a `Turn`.
ghost use Rattle.std.specs.Prelude.{◌≡◌, ℕ, suc, List};
ghost use Rattle.avl.specs.Tree.{Dir as Side};
ghost use Rattle.tree.specs.declared.node.AvlTree.{AvlTree as Root};
ghost use Rattle.tree.specs.Node.{way};
ghost use Rattle.tree.specs.Walk.{levels};
ghost use Rattle.tree.specs.Rotate.{Store};
ghost use Rattle.tree.specs.Climb.{told, left_by, tree_in, to_n, up_n};

use super::node::{AvlTree, parent_direction};
use super::spot::Spot;
use format::limit;

// What one turn leaves: the climb is done, or goes on from a side of a record.
#[derive(Clone, Copy, PartialEq, Eq)]
pub enum Step {
    Done(AvlTree),
    On(AvlTree, Spot),
}

impl Step {
    // On to a place, unless it is below no record.
    pub fn to(tree: AvlTree, at: Spot) -> Step
        ensures { result ≡ to_n tree at }
    {
        if at.parent == 0 {
            return Step::Done(tree);
        }
        Step::On(tree, at)
    }

    // From x to its parent p, unless x is the root.
    pub fn up(nodes: &[u8], tree: AvlTree, x: u16, p: u16) -> Step
        ensures { told result ≡ up_n nodes.now tree x p }
    {
        let side = parent_direction(nodes, p, x);
        Step::to(tree, Spot { parent: p, side })
    }

    pub fn tree(self) -> AvlTree
        ensures { result ≡ tree_in self }
    {
        match self {
            Step::Done(tree) => tree,
            Step::On(tree, _) => tree,
        }
    }
}

// What a climb does at a record.
pub trait Turn {
    // The whole climb, in at most so many turns.
    ghost climbed: { ℕ → List ℕ → Root → ℕ → Side → Store };

    // The side at.side of the record at.parent has changed its height.
    fn turn(nodes: &mut [u8], tree: AvlTree, at: Spot) -> Step
        ensures { (k : ℕ) → climbed (suc k) nodes.old tree at.parent (way at.side) ≡ left_by (climbed k) nodes.new result };

    // In no turn it changes nothing.
    ghost still: { (m : List ℕ) (t : Root) (x : ℕ) (d : Side) → climbed 0 m t x d ≡ (m, t) };
}

// The height of a tree limits the turns.
pub fn climb<T: Turn>(nodes: &mut [u8], tree: AvlTree, from: Spot) -> AvlTree
    ensures { (nodes.new, result) ≡ T.climbed levels nodes.old tree from.parent (way from.side) }
{
    let mut tree = tree;
    let mut at = from;
    for _turn in 0..limit::LEVELS {
        match T::turn(nodes, tree, at) {
            Step::Done(last) => return last,
            Step::On(next, above) => {
                tree = next;
                at = above;
            }
        }
    }
    tree
}
