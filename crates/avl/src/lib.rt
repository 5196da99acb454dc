// The tree algebra: what the Rust's tree does, as functions on trees of slot numbers, and the laws
// of it. There is no code here: specs/ has the definitions, proofs/ the laws that the crates above
// cite.
//
// To be read beside avl/src/lib.rs of embed-collections-rs:
//
//     the Rust                   here                                   specs/
//     Dir, DIR_LEFT, DIR_RIGHT   Dir, left, right                       Tree
//     Dir::reverse, to_balance   flip, to_balance                       Tree
//     AvlNode's balance 0, 1, 2  Bal, its number is code                Tree
//     a tree below a pointer     Tree, its pointer is top               Tree
//     parents up to the root     Way, the innermost first               Way
//     parent_direction           side                                   Way
//     rotate                     rotate (turn, double)                  Rotate
//     rotate's answer            stop: the height stays; on: it falls   Rotate
//     the loop of _insert        climb grown                            Rotate
//     the loop of _post_remove   climb shrunk                           Rotate
//     _insert                    insert                                 Edit
//     _insert_here               insert_here, its place is beside       Edit
//     _remove                    remove (replace for two children)      Edit
//     bottom_child               bottom_child (end)                     Edit
//     entry, get                 entry, get (seek)                      Search
//     add, remove_by_key         add, remove_by_key                     Search
//     first, last                bottom_child left, bottom_child right  Edit
//     _walk_dir                  walk_dir (upwards)                     Search
//     Ord of the records         Order, Follows, Exact                  Order
//
// A Way is the stack of parents that the Rust climbs over, and plug puts a tree back at its place.
// Every definition takes the direction as an argument where the Rust does, so that left and right
// are one case; only proofs/Sides.antt tells them apart.
//
//     the laws                                                          proofs/
//     sides: the small laws on which all others stand                   Sides
//     rotation, climbs, insertion, removal on the list of slots         Lists, Removal
//     they keep a tree balanced, the height changes by one at most      Balance
//     at most 14 levels for 1,024 records                               Height
//     where a search ends, how much it compares                         Search
//     neighbours, ends, places beside a record                          Walks, Beside
//     sorted lists                                                      Sorting
//     a tree answers as the sorted list of its slots                    Answers
//     the order by u64 keys                                             Keys
//     computed shapes: P1 to P6, and runs from the pointer code         Shapes, Runs
#![tactic(auto)]
