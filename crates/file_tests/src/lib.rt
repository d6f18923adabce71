//! What no run of the program shows: how often the operating system is called, answers that it never gives, and the
//! lines of the greatest numbers.
//!
//! The values are worked by hand from the documents, a module for a subject. What a run shows is a row of the
//! conformance cases, which costs no proof.
#![tactic(auto)]

#[cfg(test)]
mod answers;
#[cfg(test)]
mod streams;
