// Create: the door that makes a fresh pool. Its promise is one equation with `create` of `meaning`, on all
// inputs, with no `requires`.
#![tactic(auto)]

pub mod create;
