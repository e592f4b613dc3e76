//! The modes of files in the tables.

ghost use Rattle.std.specs.Prelude.{◌≡◌};
ghost use Rattle.repo_store.specs.Rows.{mode_number};

use hook_base::Mode;

/// The number of a mode in the tables (docs/REFERENCE.md, "The store").
pub(crate) fn number_of(mode: Mode) -> u32
    ensures { result ≡ mode_number mode }
{
    match mode {
        Mode::Plain => 0,
        Mode::Executable => 1,
    }
}
