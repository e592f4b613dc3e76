//! The cached results of children: what a child answered, by the words of its command and the files that it
//! has seen. They are a list with a limit, the most recently used first (docs/REFERENCE.md, "Cached
//! results").
//!
//! `Book` is the trait of such a cache, `ListBook` keeps it in memory, and `BookFault` says why a call is
//! refused. The contracts cite `specs/Contents.antt`, `specs/Calls.antt` and `specs/Faults.antt`;
//! `specs/Places.antt` serves private functions alone. [`laws`] says what characterizes such a list.
#![tactic(auto)]

mod book;
mod book_fault;
mod book_row;
pub mod laws;
mod list_book;
mod rows;

pub use book::Book;
pub use book_fault::BookFault;
pub use book_row::BookRow;
pub use list_book::ListBook;
