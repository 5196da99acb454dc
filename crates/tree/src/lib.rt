// Tree: the Rust's AVL tree (avl/src/lib.rs of embed-collections-rs, see NOTICE) on records of 32
// bytes in a lent slice. A pointer is a slot number, 0 for null; slot s is the 32 bytes from
// 32 (s - 1) on. The packed parent word is two fields, and the side on which a record hangs is worked
// out from its parent. A tree goes in and comes back by value; several trees share the slots.
//
// Every function is total and has no `requires`: a slot that is 0 or out of range reads as 0 and takes
// no store. Each promise of a function that the crates above call is an equation with a model of specs/ on
// the record bytes. What the models do to records that hold a tree of `avl` is proofs/Records.antt.
//
// | Rust                                | here                         | difference                                        |
// |-------------------------------------|------------------------------|---------------------------------------------------|
// | DIR_LEFT, DIR_RIGHT                 | dir::Dir::LEFT, RIGHT        | constants of an enum, its cases Left and Right    |
// | Dir::reverse, to_balance            | dir::Dir::reverse, to_balance| none                                              |
// | Dir::to_usize                       | dir::Dir::field              | the place of the child in its record              |
// | AvlNode::get_child, set_child       | node::get_child, set_child   | by slot                                           |
// | left, right                         | node::get_child              | the two are one function over the side            |
// | get_balance, set_balance            | node::get_balance, ..        | a byte of its own                                 |
// | get_parent, set_parent              | node::get_parent, ..         | the direction is taken, and not stored            |
// | clear_parent                        | node::set_parent             | with parent 0                                     |
// | set_child2, set_child2_not_null     | node::set_child2             | one: a store to slot 0 does nothing               |
// | parent_direction                    | node::parent_direction       | compares with the parent's right child, as the    |
// |                                     |                              | Rust does where a pointer has no spare bits       |
// | detach                              | node::detach                 | none                                              |
// | swap                                | remove::replace              | the neighbour is taken out first, then put in the |
// |                                     |                              | removed record's place: the same final links      |
// | AvlTree { root, count }             | node::AvlTree                | by value, count in two bytes                      |
// | bottom_child, _walk_dir             | walk::bottom_child, walk_dir | the height limits the loops                       |
// | first, last                         | walk::first, last            | a slot, 0 for none                                |
// | get, entry                          | search::get, entry           | keys are u64; the keys compared are counted; a    |
// |                                     |                              | record is read at once, by `node::node_at`        |
// | add, remove_by_key                  | search::entry, then insert   | the batch's tests stand between the two           |
// |                                     | or remove                    |                                                   |
// | next, prev                          | walk::walk_dir               | to the right, to the left                         |
// | len, is_empty                       | node::AvlTree                | its count                                         |
// | rotate                              | rotate::rotate               | single and double apart; `inv_bal & -flag` as an  |
// |                                     |                              | `if`, which compiles to no branch                 |
// | _insert                             | insert::insert               | the loop is `climb::climb`, its body that of      |
// |                                     |                              | `Grown::turn`                                     |
// | _insert_here                        | insert::insert_here          | finds its place with `beside`                     |
// | _remove                             | remove::remove               | finds parent and side itself; `remove1` for at    |
// |                                     |                              | most one child, `remove2` for two                 |
// | _post_remove                        | climb::climb                 | the loop's body is that of `Shrunk::turn`         |
#![tactic(auto)]

pub mod climb;
pub mod dir;
pub mod insert;
pub mod node;
pub mod remove;
pub mod rotate;
pub mod search;
pub mod spot;
pub mod walk;
