// The Rust's removal as the Rust does it, beside ours. There is no code here: specs/ has a model of the
// Rust's `_remove`, its stores in its order, and proofs/ shows that on every tree that records hold it
// leaves the links, balances, root and count that `remove` of `tree` leaves. The two differ for a record
// with two children: the Rust has it change places with its neighbour, in one way for a direct child and
// in another for a deeper one; ours takes the neighbour out first and puts it in the record's place.
//
// To be read beside avl/src/lib.rs of embed-collections-rs:
//
//     the Rust                               here              specs/
//     AvlNode::swap                          swap_n            Rust
//     _remove, child != child_temp           deep_n            Rust
//     _remove, child == child_temp           direct_n          Rust
//     _remove, from self.count -= 1 on       leave_n           Rust
//     _remove, two children                  rust_remove2      Rust
//     _remove, with its callers' old_parent  rust_remove       Rust
//     and del_dir
//     set_child2, set_child2_not_null        put_both          Node, of `tree`
//     set_parent, set_child, set_balance     put_n             Node, of `tree`
//     parent_direction, detach               side_n, detach_n  Node, of `tree`
//     bottom_child                           bottom_n          Walk, of `tree`
//     _post_remove                           shrink_n          Remove, of `tree`
//
// That these definitions are the Rust's stores is by reading. On 64 bits the Rust keeps the side of a
// record in its parent word; here it is worked out from the links, as the Rust does elsewhere.
//
//     the laws                                                       proofs/
//     the climb neither reads nor changes the count                  Counting
//     both orders of stores leave the same bytes                     Stores
//     both ways, where the links read as those of a tree do          Turns
//     a record with two children in a tree                           Neighbour
//     all cases, and where a record stands                           Removal
//     a tree that fits has few enough levels                         Size
//     the theorem: rust_removal_is_ours, in the words of Claim       Same
//     two small removals, computed: a direct child and a deeper one  Cases
#![tactic(auto)]
