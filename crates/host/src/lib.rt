// The door for a Rust host: plain numbers, words and byte slices. Every name begins with rv_, and an answer is document 01's number. A host in C or
// Rust calls each by its name, so that functions which differ in a width or a kind alone stand side by side here, and nowhere below. C has numbers and
// lent words alone, so that parameters are no structs here; and what a state by value is for gpr and csr is done here on the words, which no call copies.
#![tactic(auto)]

pub mod arithmetic;
pub mod control;
pub mod fields;
mod given;
pub mod memory;
pub mod registers;
pub mod translation;
