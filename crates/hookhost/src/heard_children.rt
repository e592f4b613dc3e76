//! Children of a run that shows its progress: the report on each hook once that has ended, and how long its
//! commands took.

ghost use Rattle.std.specs.Prelude.{◌≡◌};

use crate::shown_report::ShownReport;
use child_port::{ChildAsk, Children, News, Outcome};
use hook_base::{OutOfMemory, Text, Tree};
use std::cell::RefCell;
use std::rc::Rc;
use std::time::{Duration, Instant};

/// A report that is shown while it comes, and then written whole.
pub(crate) type SharedReport = Rc<RefCell<ShownReport>>;

/// Children that pass each call on to others, and show the news of the run. What can't be shown for want of
/// memory, or because the system doesn't take it, is left out.
#[derive(Drop)]
pub(crate) struct HeardChildren<C: Children> {
    inner: C,
    listener: Listener,
}

// What gets the news of a run.
#[derive(Drop)]
struct Listener {
    rt: HostRuntime,
    report: Option<SharedReport>,
    is_timed: bool,
    // The hook to which the children belong, and how long they have run, which is `None` before its first
    // child.
    hook: Option<Text>,
    took: Option<Duration>,
}

impl<C: Children> HeardChildren<C> {
    /// The children. Nothing is shown yet.
    pub(crate) fn new(rt: HostRuntime, inner: C) -> HeardChildren<C> {
        let listener = Listener {
            rt,
            report: None,
            is_timed: false,
            hook: None,
            took: None,
        };
        HeardChildren { inner, listener }
    }

    /// From now on the report of their run is shown there, or nowhere if it is `None`.
    pub(crate) fn show_report(&mut self, report: Option<SharedReport>) {
        self.listener.report = report;
    }

    /// From now on standard error says how long each hook's commands took.
    pub(crate) fn tell_durations(&mut self) {
        self.listener.is_timed = true;
    }

    /// The children themselves.
    pub(crate) fn children(&self) -> &C {
        &self.inner
    }
}

impl Listener {
    fn take(&mut self, news: News) {
        match news {
            News::Report(part) => {
                self.show(part);
                self.tell_duration();
            }
            News::Hook { id, .. } => self.begin_hook(id),
        }
    }

    fn show(&mut self, part: &[u8]) {
        let Some(report) = &self.report else {
            return;
        };
        if let Ok(mut report) = report.try_borrow_mut() {
            report.show(part);
        }
    }

    // Says how long the commands of the hook took, if any was started.
    fn tell_duration(&mut self) {
        let (Some(hook), Some(took)) = (self.hook.take(), self.took.take()) else {
            return;
        };
        let (id, seconds) = (hook.as_str(), took.as_secs());
        let hundredths = took.subsec_millis() / 10;
        let _said = eprintln!(self.rt; "duration: {id} {seconds}.{hundredths:02}s");
    }

    fn begin_hook(&mut self, id: &str) {
        if self.is_timed && self.hook.is_none() {
            self.hook = Text::copy_of(self.rt.alloc(), id).ok();
        }
    }

    // The time at which a child begins, if it is wanted.
    fn now(&self) -> Option<Instant> {
        if self.is_timed {
            Instant::now(&self.rt).ok()
        } else {
            None
        }
    }

    fn add_time(&mut self, began: Option<Instant>) {
        let Some(began) = began else {
            return;
        };
        if let Ok(time) = began.elapsed(&self.rt) {
            let before = self.took.unwrap_or(Duration::ZERO);
            self.took = Some(before.saturating_add(time));
        }
    }
}

impl<C: Children> Children for HeardChildren<C> {
    ghost tells = { λ children. C.tells children.inner };

    ghost call_count = { λ children. C.call_count children.inner };

    ghost fault_count = { λ children. C.fault_count children.inner };

    ghost faults_at_most_calls = { λ children. C.faults_at_most_calls children.inner };

    fn run(&mut self, words: &[Text], tree: &Tree, seen: &Tree) -> Result<Outcome, OutOfMemory> {
        let began = self.listener.now();
        let outcome = self.inner.run(words, tree, seen);
        self.listener.add_time(began);
        outcome
    }

    fn calls(&self) -> u64 {
        self.inner.calls()
    }

    fn faults(&self) -> u64 {
        self.inner.faults()
    }

    fn hears(&self) -> bool {
        self.listener.report.is_some() || self.listener.is_timed || self.inner.hears()
    }

    fn hear(&mut self, news: News) {
        self.listener.take(news);
        self.inner.hear(news);
    }

    // How long the commands of one hook took can be said only if no others run at the same time.
    fn at_once(&self) -> usize {
        if self.listener.is_timed {
            1
        } else {
            self.inner.at_once()
        }
    }

    fn start_ahead(&mut self, asks: Vec<ChildAsk>, tree: &Tree) {
        self.inner.start_ahead(asks, tree);
    }
}
