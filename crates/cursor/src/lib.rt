// Cursor: what a batch carries from command to command, and the tests that its commands share. Crate `ops`
// has the commands themselves, crate `batch` the loop over them.
//
// | file       | what it has                                                                      |
// |------------|----------------------------------------------------------------------------------|
// | command.rt | a command as it stands in a batch, and the tests that commands share             |
// | cursor.rt  | the one cursor, after entry.rs: a value that each step takes and gives back      |
// | result.rt  | what a command has done or why it is refused, as its function hands it back      |
// | state.rt   | the state of a batch: numbers, cursor and mark; and the state after a command    |
#![tactic(auto)]

pub mod command;
pub mod cursor;
pub mod result;
pub mod state;
