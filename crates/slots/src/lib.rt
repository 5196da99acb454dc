// Slots: a pool while a batch works on it. Its header's numbers and its tree table are a value, `Head`,
// read once and stored once; its records and its text are one lent slice, the body. Slot x is the 32
// bytes of the body from 32 (x - 1) on, as in crate `tree`, and the text follows the records.
//
// Every public function is total and has no `requires`; each promise is an equation with a model of specs/.
// Run on the head and the body of a well-formed pool of `meaning`, the models read what it holds
// (proofs/Looking.antt, Placing.antt) and leave the head and the body of the pool that `meaning` says
// (Changing.antt, Texts.antt); Opening.antt and Closing.antt lead from a pool's bytes and back to them.
//
// | file       | what it does                                                                  |
// |------------|-------------------------------------------------------------------------------|
// | record.rt  | a record's own fields read and written, a record cleared, the lowest free slot |
// | head.rt    | the head read from a pool and stored into it, a tree of the table              |
// | change.rt  | a record into a slot and its tree and out of both, a new record's name and     |
// |            | stamp, reset, the text cut back                                                |
// | answer.rt  | an answer written                                                              |
#![tactic(auto)]

pub mod answer;
pub mod change;
pub mod head;
pub mod record;
