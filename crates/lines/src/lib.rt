// Lines: the text of a pool's listing.
//
// A `Writer` holds a lent buffer and how much of it is written; what a method leaves is `wrote` of
// specs/Text.antt. Its methods are private to the crate and ask that their text fits; `listing` asks
// nothing, since every listing fits in LIMIT bytes.
//
// | file     | what it writes                                                            |
// |----------|---------------------------------------------------------------------------|
// | text.rt  | `Writer`: a byte, a text, a number, numbers, bytes in hexadecimal          |
// | line.rt  | its lines: the first, a record's, a tree's, those of all trees             |
// | whole.rt | the listing                                                                |
#![tactic(auto)]

mod line;
mod text;
mod whole;

pub use whole::{LIMIT, listing};
