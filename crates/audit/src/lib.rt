//! Whether what a look shows as used is what the book's places use: the places are summed anew, in
//! one pass over them.
#![tactic(auto)]

mod pieces;
mod rows;
mod sums;

pub use rows::audit;
