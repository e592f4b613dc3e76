//! Tests of the public calls of libraries: of what no clause says, such as the texts that are printed, and
//! that calls which allocate succeed.
//!
//! They are in a crate of their own, since a crate with tests is proved twice: without them, and again with
//! them. The module `children` tests `child_port`, `shown_lines` tests `child_display`, and `books` tests
//! `result_book`. A test is a list of cases that one function plays: a proof grows faster than the number of
//! ways out of a function.
#![tactic(auto)]

#[cfg(test)]
mod books;
#[cfg(test)]
mod children;
#[cfg(test)]
mod shown_lines;
#[cfg(test)]
mod words;
