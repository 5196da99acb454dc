// Console: what the programs share, which is printing to standard output, reading from standard input, an answer and
// buffers. No function has a `requires`; a write that fails is passed over.
#![tactic(auto)]

pub mod answer;
pub mod print;
pub mod read;
pub mod space;
