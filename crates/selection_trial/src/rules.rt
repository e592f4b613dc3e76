//! The rules of a selection: patterns and tags.

use hook_base::Text;
use path_select::{Pattern, PatternFault, Rules};
use std::alloc::Global;
use trial_rows::{Stop, text_of};

/// The patterns in arguments.
pub(crate) fn patterns_of(alloc: Global, arguments: &[Vec<u8>]) -> Result<Vec<Pattern>, Stop> {
    let mut patterns = Vec::new(alloc);
    for argument in arguments {
        patterns.push(pattern_of(alloc, argument.as_slice())?)?;
    }
    Ok(patterns)
}

/// The pattern in an argument.
pub(crate) fn pattern_of(alloc: Global, argument: &[u8]) -> Result<Pattern, Stop> {
    match Pattern::build(alloc, text_of(argument)?) {
        Ok(pattern) => Ok(pattern),
        Err(PatternFault::NotAPattern) => Err(Stop::BadLine),
        Err(PatternFault::OutOfMemory) => Err(Stop::OutOfMemory),
    }
}

/// The lists of tags in arguments.
pub(crate) fn tag_lists_of(alloc: Global, arguments: &[Vec<u8>]) -> Result<Vec<Vec<Text>>, Stop> {
    let mut lists = Vec::new(alloc);
    for argument in arguments {
        lists.push(tags_of(alloc, text_of(argument.as_slice())?)?)?;
    }
    Ok(lists)
}

// The tags in a text, separated by blanks.
fn tags_of(alloc: Global, text: &str) -> Result<Vec<Text>, Stop> {
    let mut tags = Vec::new(alloc);
    for word in text.split_whitespace() {
        tags.push(Text::copy_of(alloc, word)?)?;
    }
    Ok(tags)
}

/// The rules with four patterns and three lists of tags, in the order of the fields.
pub(crate) fn rules_of<'a>(
    patterns: &'a [Pattern],
    lists: &'a [Vec<Text>],
) -> Result<Rules<'a>, Stop> {
    let ([top_files, top_exclude, files, exclude], [types, types_or, exclude_types]) = (
        patterns, lists,
    ) else {
        return Err(Stop::BadLine);
    };
    Ok(Rules {
        top_files,
        top_exclude,
        files,
        exclude,
        types: types.as_slice(),
        types_or: types_or.as_slice(),
        exclude_types: exclude_types.as_slice(),
    })
}
