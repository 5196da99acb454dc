// Name: the door that gives the name of a record by its handle, and where that name stands in the pool. Each
// promise is one equation, on all inputs, with no `requires`: `name` of `meaning`, `place_of` of this crate.
#![tactic(auto)]

pub mod name;
