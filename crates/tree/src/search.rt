// The search for a key.
ghost use Rattle.std.specs.Prelude.{◌≡◌};
ghost use Rattle.avl.specs.Tree.{right};
ghost use Rattle.tree.specs.Node.{way};
ghost use Rattle.tree.specs.Walk.{levels};
ghost use Rattle.tree.specs.Search.{seek_n};

use super::dir::Dir;
use super::node::{AvlTree, node_at};
use super::spot::Spot;
use format::limit;

// Where a search ends: the record found or 0, which is how a pool says none and how the crates above hand it on,
// the place where it hangs (below none, right, on an empty tree), and how many keys were compared.
#[derive(Clone, Copy, PartialEq, Eq)]
pub struct Place {
    pub slot: u16,
    pub spot: Spot,
    pub compared: u8,
}

pub fn entry(nodes: &[u8], t: AvlTree, key: u64) -> Place
    ensures { record { slot = result.slot; above = result.spot.parent; side = way result.spot.side; compared = result.compared } ≡ seek_n levels nodes.now key t.root 0 right 0 }
{
    let mut at = t.root;
    let mut spot = Spot {
        parent: 0,
        side: Dir::Right,
    };
    for compared in 0..limit::LEVELS {
        if at == 0 {
            return Place {
                slot: 0,
                spot,
                compared,
            };
        }
        let x = node_at(nodes, at);
        if key == x.key {
            return Place {
                slot: at,
                spot,
                compared: compared + 1,
            };
        }
        let side = if key < x.key { Dir::Left } else { Dir::Right };
        spot = Spot { parent: at, side };
        at = x.child(side);
    }
    Place {
        slot: 0,
        spot,
        compared: limit::LEVELS,
    }
}

// The record with the key, 0 for none, as node.rt says why.
pub fn get(nodes: &[u8], t: AvlTree, key: u64) -> u16
    ensures { result ≡ (seek_n levels nodes.now key t.root 0 right 0).slot }
{
    entry(nodes, t, key).slot
}
