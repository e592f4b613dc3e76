//! The program's version.

/// The version, and on a line of its own the logic of the program's proofs, as `rt version` names it.
pub(crate) const VERSION: &str = "0.1.0\nrattle logic dac8208d650f15bf";
