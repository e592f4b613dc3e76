//! How many columns a terminal has.
//!
//! The contracts cite `specs/Lines.antt`.

ghost use Rattle.std.specs.Prelude.{◌≡◌};
ghost use Rattle.child_display.specs.Lines.{SaysColumns, number_said, usual_columns};

// The width that is assumed if none is given.
const USUAL_COLUMNS: usize = 80;

/// How many columns a terminal has, from what a shell says in the variable `COLUMNS` (POSIX.1-2017, XBD
/// section 8.3). It is that number if it is from 1 to 65,535, and otherwise 80.
pub fn columns_of(said: &str) -> usize
    ensures said { SaysColumns said.now → result ≡ number_said said.now }
    ensures unsaid { ¬ SaysColumns said.now → result ≡ usual_columns }
{
    match said.parse::<u16>() {
        Ok(0) | Err(_) => USUAL_COLUMNS,
        Ok(columns) => usize::from(columns),
    }
}
