//! Why a store refuses a call, and how much it takes.
//!
//! `StoreFault` says why a call is refused, and the constants are the limits; an
//! `AnswerLimit` is a number of results that may be cached. The contracts cite
//! `specs/Faults` and `specs/Limits`; [`laws`] proves that the limits of the code are those of the
//! definitions.
#![tactic(auto)]

mod answer_limit;
mod fault;
pub mod laws;
mod limits;

pub use answer_limit::AnswerLimit;
pub use fault::{StoreFault, fault_of};
pub use limits::{
    FIRST_LIMIT, MOST_ANSWERS, MOST_COMMITS, MOST_CONTENT_BYTES, MOST_FILES, MOST_TREE_PATH_BYTES,
};
