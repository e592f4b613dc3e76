//! The arguments of a hook of the language `pygrep`.

ghost use Rattle.std.specs.Prelude.{◌≡◌};
ghost use Rattle.std.specs.List.{list_all, list_any};
ghost use Rattle.builtin_hooks.specs.Search.{is_ignore_case, is_known, is_multiline, is_negate};

/// What the arguments of a hook say.
#[derive(Clone, Copy, Debug)]
pub struct Flags {
    /// Letters are found in either case.
    pub ignore_case: bool,
    /// A file is searched as a whole.
    pub multiline: bool,
    /// The files without a match are asked for.
    pub negate: bool,
}

impl Flags {
    /// What these arguments say. An unknown one says nothing.
    pub fn of(args: &[&str]) -> Flags
        ensures ignore_case { result.ignore_case ≡ list_any (λ arg. is_ignore_case arg.now) args.now }
        ensures multiline { result.multiline ≡ list_any (λ arg. is_multiline arg.now) args.now }
        ensures negate { result.negate ≡ list_any (λ arg. is_negate arg.now) args.now }
    {
        Flags {
            ignore_case: have_ignore_case(args),
            multiline: have_multiline(args),
            negate: have_negate(args),
        }
    }
}

fn have_ignore_case(args: &[&str]) -> bool
    ensures { result ≡ list_any (λ arg. is_ignore_case arg.now) args.now }
{
    args.iter().any(|arg| is_ignore_case(arg))
}

fn have_multiline(args: &[&str]) -> bool
    ensures { result ≡ list_any (λ arg. is_multiline arg.now) args.now }
{
    args.iter().any(|arg| is_multiline(arg))
}

fn have_negate(args: &[&str]) -> bool
    ensures { result ≡ list_any (λ arg. is_negate arg.now) args.now }
{
    args.iter().any(|arg| is_negate(arg))
}

/// Whether each argument is a known one.
pub fn are_known(args: &[&str]) -> bool
    ensures { result ≡ list_all (λ arg. is_known arg.now) args.now }
{
    args.iter().all(|arg| is_known(arg))
}

fn is_known(arg: &str) -> bool
    ensures { result ≡ is_known arg.now }
{
    is_ignore_case(arg) || is_multiline(arg) || is_negate(arg)
}

fn is_ignore_case(arg: &str) -> bool
    ensures { result ≡ is_ignore_case arg.now }
{
    arg == "-i" || arg == "--ignore-case"
}

fn is_multiline(arg: &str) -> bool
    ensures { result ≡ is_multiline arg.now }
{
    arg == "--multiline"
}

fn is_negate(arg: &str) -> bool
    ensures { result ≡ is_negate arg.now }
{
    arg == "--negate"
}
