//! Children that are shown while they run.

ghost use Rattle.std.specs.Prelude.{◌≡◌};

use crate::ShownHook;
use crate::line::{clearing, line_of_child, line_of_hook};
use child_port::{ChildAsk, Children, News, Outcome};
use hook_base::{OutOfMemory, Text, Tree};
use std::alloc::Global;
use std::io::Write;

/// A terminal on which a line is shown.
#[derive(Debug, Drop)]
pub struct Terminal<W> {
    /// Where the line takes its memory from.
    pub alloc: Global,
    /// The writer to the terminal.
    pub writer: W,
    /// How many columns it has.
    pub columns: usize,
}

/// Children that pass each call on to other children, and show its command on a terminal, if there is one,
/// while it runs. The line is that of `line_of_hook`, or of `line_of_child` if no run has said to which hook
/// its children belong. It is cleared when the call has ended. What a terminal doesn't take isn't shown, and
/// nothing is shown if memory is refused.
#[derive(Debug, Drop)]
pub struct ShownChildren<C: Children, W: Write> {
    inner: C,
    terminal: Option<Terminal<W>>,
    // The hook to which the next child belongs.
    hook: Option<ShownHook>,
}

impl<C: Children, W: Write> ShownChildren<C, W> {
    ghost use Rattle.child_port.specs.Telling.{SameTells};

    /// Shows these children on the terminal, or nowhere if there is none.
    pub fn new(inner: C, terminal: Option<Terminal<W>>) -> Self
        ensures tells { SameTells (C.tells inner) (⟦<ShownChildren<C, W> as Children>⟧.tells result) }
        ensures calls { ⟦<ShownChildren<C, W> as Children>⟧.call_count result ≡ C.call_count inner }
        ensures faults { ⟦<ShownChildren<C, W> as Children>⟧.fault_count result ≡ C.fault_count inner }
    {
        ShownChildren {
            inner,
            terminal,
            hook: None,
        }
    }

    /// The children themselves.
    pub fn children(&self) -> &C
        ensures tells { SameTells (C.tells result.now) (⟦<ShownChildren<C, W> as Children>⟧.tells self.now) }
        ensures calls { C.call_count result.now ≡ ⟦<ShownChildren<C, W> as Children>⟧.call_count self.now }
        ensures faults { C.fault_count result.now ≡ ⟦<ShownChildren<C, W> as Children>⟧.fault_count self.now }
    {
        &self.inner
    }
}

impl<C: Children, W: Write> Children for ShownChildren<C, W> {
    ghost tells = { λ children. C.tells children.inner };

    ghost call_count = { λ children. C.call_count children.inner };

    ghost fault_count = { λ children. C.fault_count children.inner };

    ghost faults_at_most_calls = { λ children. C.faults_at_most_calls children.inner };

    fn run(&mut self, words: &[Text], tree: &Tree, seen: &Tree) -> Result<Outcome, OutOfMemory> {
        let before = self.inner.calls();
        let Some(terminal) = &mut self.terminal else {
            return self.inner.run(words, tree, seen);
        };
        terminal.show(self.hook.as_ref(), words, before);
        let outcome = self.inner.run(words, tree, seen);
        terminal.clear();
        outcome
    }

    fn calls(&self) -> u64 {
        self.inner.calls()
    }

    fn faults(&self) -> u64 {
        self.inner.faults()
    }

    fn hears(&self) -> bool {
        self.terminal.is_some()
    }

    fn hear(&mut self, news: News) {
        let (
            Some(terminal),
            News::Hook {
                place,
                hooks,
                name,
                ..
            },
        ) = (&self.terminal, news)
        else {
            return;
        };
        self.hook = match Text::copy_of(terminal.alloc, name) {
            Ok(name) => Some(ShownHook {
                name,
                place,
                stage_hooks: hooks,
            }),
            Err(OutOfMemory) => None,
        };
    }

    fn at_once(&self) -> usize {
        self.inner.at_once()
    }

    fn start_ahead(&mut self, asks: Vec<ChildAsk>, tree: &Tree) {
        self.inner.start_ahead(asks, tree);
    }
}

impl<W: Write> Terminal<W> {
    fn show(&mut self, hook: Option<&ShownHook>, words: &[Text], before: u64) {
        let line = match hook {
            Some(hook) => line_of_hook(self.alloc, hook, words, before, self.columns),
            None => line_of_child(self.alloc, words, before, self.columns),
        };
        if let Ok(line) = line {
            self.write(line.as_str());
        }
    }

    fn clear(&mut self) {
        self.write(clearing());
    }

    // An error of the terminal is ignored: nothing depends on what it shows.
    fn write(&mut self, text: &str) {
        let _written = self.writer.write_all(text.as_bytes());
        let _flushed = self.writer.flush();
    }
}
