// Batch: the door that carries out a batch of commands, proved equal to `batch` of `meaning` on all
// pools, batches and answer buffers, with no `requires`. Crate `ops` has the commands, `cursor` the state
// that they share, `journal` what undoes them.
//
// | file       | what it does                                                             |
// |------------|--------------------------------------------------------------------------|
// | door.rt    | the door: header and length, answers, soundness; then the commands       |
// | run.rt     | the commands in turn                                                     |
// | session.rt | what is carried from command to command, a command in its turn, the end  |
#![tactic(auto)]

pub mod door;
mod run;
mod session;
