// A place below a record: the record, 0 for none, and its side there.
ghost use Rattle.std.specs.Prelude.{◌≡◌};
ghost use Rattle.tree.specs.Node.{way, parent, get_n, side_n};

use super::dir::Dir;
use super::node::{get_parent, parent_direction};

#[derive(Clone, Copy, PartialEq, Eq)]
pub struct Spot {
    pub parent: u16,
    pub side: Dir,
}

impl Spot {
    // Where x hangs.
    pub fn of(nodes: &[u8], x: u16) -> Spot
        ensures parent { result.parent ≡ get_n nodes.now x parent }
        ensures side { way result.side ≡ side_n nodes.now result.parent x }
    {
        let parent = get_parent(nodes, x);
        let side = parent_direction(nodes, parent, x);
        Spot { parent, side }
    }
}
