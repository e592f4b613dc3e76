//! The table of known tools. It is written only here, and `specs/Tools.antt` reads it from here.
//! (docs/REFERENCE.md, "Known tools".)

ghost use Rattle.std.specs.Prelude.{◌≡◌, IfSome};
ghost use Rattle.hook_config.specs.Limits.{IsShort};
ghost use Rattle.run_options.specs.Tools.{tool_of, tool_rows_of, tool_in, tool_rows};

/// What kind of words a known tool may be given after its name, so that it still reads nothing but what its
/// row says.
#[derive(Clone, Copy, Debug, PartialEq, Eq)]
pub enum ToolKind {
    /// Options that name no file: a letter, maybe with a number after it, or a long option, maybe with `=`
    /// and numbers or codes of messages.
    Options,
    /// Some of the options of `grep`, and at most one other word, the pattern.
    Grep,
    /// Some of the options of `sed`, and scripts that read and run nothing.
    Sed,
    /// Any words.
    Any,
}

/// What a known tool's verdict on a file depends on, if its words and settings stay the same.
#[derive(Clone, Copy, Debug, PartialEq, Eq)]
pub enum Verdict {
    /// The file alone, so the files may be split among several commands.
    OfEach,
    /// All files that it is given together. It compares them, follows what leads from one to another, looks
    /// for its settings above all of them, or its output tells how many it was given.
    OfAll,
}

// No path.
const NOTHING: &str = "^$";

// Paths with a part that begins with a dot. They are in each of the patterns of a tool that reads a
// configuration.
const DOT: &str = r"(^|/)\.";

// `pyproject.toml`, `setup.cfg`, `tox.ini` and the like.
const PYTHON: &str = r"(^|/)\.|\.(toml|cfg|ini)$";

const TOML: &str = r"(^|/)\.|\.toml$";

// It asks whether a folder has `__init__.py`.
const BANDIT: &str = r"(^|/)\.|\.(toml|cfg|ini|ya?ml|py)$";

const CLANG_FORMAT: &str = r"(^|/)\.|(^|/)_clang-format$";

const ELM: &str = r"(^|/)\.|(^|/)elm(-package)?\.json$";

const GO: &str = r"(^|/)\.|(^|/)go\.(mod|work)$";

const HADOLINT: &str = r"(^|/)\.|(^|/)hadolint\.ya?ml$";

// Both tools read a package's language extensions from its description.
const HASKELL: &str = r"(^|/)\.|\.cabal$|(^|/)(cabal\.project|fourmolu\.ya?ml|package\.yaml)";

// The tool takes a name that begins with `@` for that of a list of words.
const JAVA: &str = r"(^|/)\.|\.java$";

// Such a file says that a project begins in its folder.
const DUNE: &str = r"(^|/)\.|(^|/)dune[^/]*$";

// The tool keeps a copy of the picture, and stops if such a file is there already.
const BACKUPS: &str = r"\.bak$";

// The tool writes next to a file, over what is there.
const PERLTIDY: &str = r"(^|/)\.|(^|/)perltidy[^/]*$|\.(bak|DEBUG|ERR|LOG|TEE|tdy)$";

// What settings may name, what plugins are written in and what imports lead to. It is each file in a folder.
// At the top it is each file whose name begins with a dot, has none, or ends as one of code, compiled
// modules, settings or lists of words. So documents at the top are left out.
const PROJECT: &str =
    r"/|^\.|^[^.]*$|\.([cm]?[jt]sx?|json5?|jsonc|ya?ml|toml|cfg|ini|conf|properties|xml|txt|in|lock|lst|dic|dict|words|py[di]?|so|typed|rb|ru|gemspec|rake|p[lm]|t|(ba|da|k|z)?sh|bats|inc|env|vue|svelte|css|s[ac]ss|less|html?|mod|sum|hh?|hpp|cc?|cpp)$";

const PROSELINT: &str = r"(^|/)\.|(^|/)proselint[^/]*$";

const EACH: Verdict = Verdict::OfEach;

const ALL: Verdict = Verdict::OfAll;

/// Tools that read nothing but the files that they are given and those in whose paths the pattern of their
/// row is found. A row has the name that is the first word of a command, the kind of words that may follow
/// it, the pattern, and what a verdict depends on. No name occurs twice.
///
/// Tools whose settings may name another file, that look for modules or that load plugins of the project read
/// all of `PROJECT`. A tool that may read any file all the same isn't listed: one that runs what else is
/// installed, or follows what its files include.
pub static TOOLS: [(&str, ToolKind, &str, Verdict); 91] = [
    ("add-trailing-comma", ToolKind::Options, NOTHING, EACH),
    ("alejandra", ToolKind::Options, TOML, EACH),
    ("autoflake", ToolKind::Options, PYTHON, ALL),
    ("autopep8", ToolKind::Options, PYTHON, ALL),
    ("bandit", ToolKind::Options, BANDIT, EACH),
    ("black", ToolKind::Options, PYTHON, ALL),
    ("blacken-docs", ToolKind::Options, PYTHON, EACH),
    ("check-ast", ToolKind::Options, NOTHING, EACH),
    ("check-builtin-literals", ToolKind::Options, NOTHING, EACH),
    ("check-byte-order-marker", ToolKind::Options, NOTHING, EACH),
    ("check-docstring-first", ToolKind::Options, NOTHING, EACH),
    ("check-json", ToolKind::Options, NOTHING, EACH),
    ("check-toml", ToolKind::Options, NOTHING, EACH),
    ("check-yaml", ToolKind::Options, NOTHING, EACH),
    ("checkbashisms", ToolKind::Options, NOTHING, EACH),
    ("clang-format", ToolKind::Options, CLANG_FORMAT, EACH),
    ("codespell", ToolKind::Options, PROJECT, EACH),
    ("csslint", ToolKind::Options, DOT, EACH),
    ("darglint", ToolKind::Options, PYTHON, EACH),
    ("deadnix", ToolKind::Options, DOT, EACH),
    ("debug-statement-hook", ToolKind::Options, NOTHING, EACH),
    ("desktop-file-validate", ToolKind::Options, NOTHING, EACH),
    ("detect-private-key", ToolKind::Options, NOTHING, EACH),
    ("docformatter", ToolKind::Options, PYTHON, EACH),
    ("dos2unix", ToolKind::Options, NOTHING, EACH),
    (
        "double-quote-string-fixer",
        ToolKind::Options,
        NOTHING,
        EACH,
    ),
    ("echo", ToolKind::Any, NOTHING, ALL),
    ("editorconfig-checker", ToolKind::Options, DOT, EACH),
    ("egrep", ToolKind::Grep, NOTHING, ALL),
    ("elm-format", ToolKind::Options, ELM, EACH),
    ("end-of-file-fixer", ToolKind::Options, NOTHING, EACH),
    ("eslint", ToolKind::Options, PROJECT, EACH),
    ("false", ToolKind::Any, NOTHING, ALL),
    ("fgrep", ToolKind::Grep, NOTHING, ALL),
    ("file-contents-sorter", ToolKind::Options, NOTHING, EACH),
    ("fix-byte-order-marker", ToolKind::Options, NOTHING, EACH),
    ("fix-encoding-pragma", ToolKind::Options, NOTHING, EACH),
    ("flake8", ToolKind::Options, PROJECT, EACH),
    ("flawfinder", ToolKind::Options, NOTHING, EACH),
    ("flynt", ToolKind::Options, PYTHON, ALL),
    ("fourmolu", ToolKind::Options, HASKELL, EACH),
    ("gofmt", ToolKind::Options, GO, EACH),
    ("google-java-format", ToolKind::Options, JAVA, EACH),
    ("grep", ToolKind::Grep, NOTHING, ALL),
    ("hadolint", ToolKind::Options, HADOLINT, EACH),
    ("isort", ToolKind::Options, PROJECT, ALL),
    ("jpegoptim", ToolKind::Options, NOTHING, EACH),
    ("jsonnetfmt", ToolKind::Options, NOTHING, EACH),
    ("markdownlint", ToolKind::Options, PROJECT, EACH),
    ("mdl", ToolKind::Options, PROJECT, EACH),
    ("misspell", ToolKind::Options, NOTHING, EACH),
    ("mixed-line-ending", ToolKind::Options, NOTHING, EACH),
    ("mypy", ToolKind::Options, PROJECT, ALL),
    ("name-tests-test", ToolKind::Options, NOTHING, EACH),
    ("nixfmt", ToolKind::Options, DOT, EACH),
    ("ocamlformat", ToolKind::Options, DUNE, EACH),
    ("optipng", ToolKind::Options, BACKUPS, EACH),
    ("ormolu", ToolKind::Options, HASKELL, EACH),
    ("perlcritic", ToolKind::Options, PROJECT, EACH),
    ("perltidy", ToolKind::Options, PERLTIDY, EACH),
    ("podchecker", ToolKind::Options, NOTHING, EACH),
    ("prettier", ToolKind::Options, PROJECT, EACH),
    ("pretty-format-json", ToolKind::Options, NOTHING, EACH),
    ("printf", ToolKind::Any, NOTHING, ALL),
    ("proselint", ToolKind::Options, PROSELINT, EACH),
    ("pycodestyle", ToolKind::Options, PYTHON, ALL),
    ("pydocstyle", ToolKind::Options, PYTHON, EACH),
    ("pyflakes", ToolKind::Options, NOTHING, EACH),
    ("pyflakes3", ToolKind::Options, NOTHING, EACH),
    ("pylint", ToolKind::Options, PROJECT, ALL),
    ("pyupgrade", ToolKind::Options, NOTHING, EACH),
    ("requirements-txt-fixer", ToolKind::Options, NOTHING, EACH),
    ("rubocop", ToolKind::Options, PROJECT, EACH),
    ("ruff", ToolKind::Options, PROJECT, EACH),
    ("sed", ToolKind::Sed, NOTHING, ALL),
    ("shellcheck", ToolKind::Options, PROJECT, ALL),
    ("shfmt", ToolKind::Options, DOT, EACH),
    ("sort-simple-yaml", ToolKind::Options, NOTHING, EACH),
    ("stylelint", ToolKind::Options, PROJECT, EACH),
    ("stylua", ToolKind::Options, TOML, EACH),
    ("tidy", ToolKind::Options, NOTHING, EACH),
    ("toml-sort", ToolKind::Options, TOML, EACH),
    (
        "trailing-whitespace-fixer",
        ToolKind::Options,
        NOTHING,
        EACH,
    ),
    ("true", ToolKind::Any, NOTHING, ALL),
    ("tsc", ToolKind::Options, PROJECT, ALL),
    ("typos", ToolKind::Options, TOML, EACH),
    ("unix2dos", ToolKind::Options, NOTHING, EACH),
    ("vint", ToolKind::Options, DOT, EACH),
    ("yamllint", ToolKind::Options, PROJECT, EACH),
    ("yapf", ToolKind::Options, PYTHON, EACH),
    ("yapf3", ToolKind::Options, PYTHON, EACH),
];

/// What kind of words the tool of that name may be given, the pattern of what it reads, and what its verdict
/// on a file depends on. Nothing if the tool isn't known.
#[tactic(auto, unfolding(crate::specs::Tools::tool_rows))]
pub(crate) fn tool_named(name: &str) -> Option<(ToolKind, &'static str, Verdict)>
    ensures tool { tool_of result ≡ tool_in tool_rows name.now }
    ensures short { IfSome result (λ tool. IsShort tool.1.now) }
{
    tool_in(&TOOLS, name)
}

// The tool of the first row that has the name.
fn tool_in(
    rows: &'static [(&'static str, ToolKind, &'static str, Verdict)],
    name: &str,
) -> Option<(ToolKind, &'static str, Verdict)>
    ensures { tool_of result ≡ tool_in (tool_rows_of rows.now) name.now }
{
    'rows: for row in rows {
        if row.0 == name {
            return Some((row.1, row.2, row.3));
        }
    }
    None
}
