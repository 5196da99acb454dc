// Fields: little-endian numbers and parts at places of a lent byte slice.
//
// Every public function is total and has no `requires`: a place that does not lie wholly within the slice
// reads as 0 or as empty, and a store there changes nothing. Only what an implementation of `Number` gives,
// its load and its store, is for a place within the slice. Each promise is an equation with a definition of
// specs/Number.antt or specs/Part.antt.
#![tactic(auto)]

mod number;
mod part;

pub use number::{Number, get, put};
pub use part::{all_zero, copy_in, within, zero_out};
