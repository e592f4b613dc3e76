//! The texts that the look-up commands `status`, `fixes`, `log` and `show` print, each made from a store.
//!
//! The contracts cite `specs/StatusText.antt`, `specs/FixesText.antt`, `specs/LogText.antt` and
//! `specs/ShowText.antt`; `specs/StatusWalk.antt` is for private functions only. [`laws`] says which paths
//! `status` looks at.
#![tactic(auto)]

mod fixes;
pub mod laws;
mod log;
mod show;
mod status;

pub use fixes::fixes_text;
pub use log::log_text;
pub use show::show_text;
pub use status::status_text;
