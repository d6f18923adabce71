//! Lemmas of lists, bits and numbers, for the proofs of every crate.
//!
//! A lemma that two crates need, and that speaks of none of them, is here once. There is no code and no
//! definition: each file of `specs/` holds proved statements, and no promise speaks of them.
//!
//! - `Lists`: fronts of lists, cuts, and what is counted along them.
//! - `Searches`: what a search over some numbers finds.
//! - `Results`: an error that is passed on.
//! - `Bits`: the lowest bits of a number.
//! - `Digits`: what tests of decimal digits say.
//! - `Quotients`: a quotient by a product and a shift, and one that is rounded up.
//!
//! Lemmas that speak of one crate's definitions are in the `specs/` of that crate, in files named `..Lemmas`.
#![tactic(auto)]
