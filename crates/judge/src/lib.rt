// Judge: whether a pool is sound. The door `check` is proved equal to its definition in `meaning` on all inputs,
// with no `requires`; `judge`, on which all doors rest that take a pool, also tells how many records of a sound
// pool are live and its lowest free slot.
//
// | file       | what it has                                                                             |
// |------------|-----------------------------------------------------------------------------------------|
// | verdict.rt | judge, is_sound, check: one pass over each section, header, tree entries, records, text  |
// | rows.rt    | the clauses of header, entry and record, and the pass over the records                  |
// | walk.rt    | the pass over a tree's links                                                            |
//
// Stack only: the deepest calls are check_link and check_record in turn, 14 levels.
#![tactic(auto)]

mod rows;
pub mod verdict;
mod walk;
