// Ops: the commands of a batch, one function for each kind. What a function hands back (crate `cursor`,
// result.rt) is fixed by its promise, an equation with a model of specs/Ops.antt; no function has a
// `requires`. Run on the body and the state of a good state of `meaning`, the models do what its tables say
// of every op but a rollback, which only asks for the journal here (proofs/Performing.antt); crate `batch`
// has all of them (InTurn).
//
// | file         | what it does                                                                   |
// |--------------|--------------------------------------------------------------------------------|
// | op.rt        | the ops by what they do, parsed from their numbers                             |
// | task.rt      | a command with what it works on, and the tests that ops share                  |
// | ending.rt    | how a record is taken out or added                                             |
// | look.rt      | the ops that show a record: 2, 5 to 15                                         |
// | remove.rt    | the ops that remove one: 3, 4, 21 to 23                                        |
// | add.rt       | the ops that add one: 1, 16 to 20, 24, 25                                      |
// | mark.rt      | mark, rollback, commit, reset: 26 to 29                                        |
// | perform.rt   | one command, by its op                                                         |
// | by_number.rt | the same by the number of its op, whichever it is                              |
#![tactic(auto)]

mod add;
pub mod by_number;
mod ending;
mod look;
pub mod mark;
pub mod op;
pub mod perform;
mod remove;
pub mod task;
