//! The test of paths by two patterns: the first has to be found, and the second not.

ghost use Rattle.std.specs.Prelude.{◌≡◌, IfOk};
ghost use Rattle.path_select.specs.Candidates.{passes};

use crate::Pattern;
use crate::search::Search;
use hook_base::OutOfMemory;
use std::alloc::Global;

/// Tests paths by two patterns.
#[derive(Drop)]
pub(crate) struct PathFilter<'p> {
    files: Search<'p>,
    exclude: Search<'p>,
}

impl<'p> PathFilter<'p> {
    /// A filter with these patterns, or `OutOfMemory` if memory is refused.
    pub(crate) fn new(
        alloc: Global,
        files: &'p Pattern,
        exclude: &'p Pattern,
    ) -> Result<PathFilter<'p>, OutOfMemory>
        ensures files { IfOk result (λ filter. filter.files ≡ files.now) }
        ensures exclude { IfOk result (λ filter. filter.exclude ≡ exclude.now) }
    {
        Ok(PathFilter {
            files: Search::new(alloc, files)?,
            exclude: Search::new(alloc, exclude)?,
        })
    }

    /// Whether the first pattern is found in the path, and the second isn't.
    pub(crate) fn passes(&mut self, path: &str) -> bool
        ensures passes { result ≡ passes self.old.files self.old.exclude path.now }
        ensures same { self.new ≡ self.old }
    {
        self.files.finds(path) && !self.exclude.finds(path)
    }
}
