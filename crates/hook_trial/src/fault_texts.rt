//! The texts of the refusals that no other row shows.

use arg_partition::WordsFault;
use commit_flow::HostRefusal;
use hook_base::PathFault;
use hook_config::{ConfigFault, ConfigKind};
use repo_store::StoreFault;
use result_book::BookFault;
use std::alloc::Global;
use trial_rows::{AnswerBytes, Stop};

/// `fault_texts`: the number and the text of each refusal of words, of a book and of a host, a line each.
pub(crate) fn told(alloc: Global) -> Result<AnswerBytes, Stop> {
    Ok(with_hosts(with_books(with_words(AnswerBytes::new(alloc)))))
}

fn with_words(answer: AnswerBytes) -> AnswerBytes {
    let mut answer = answer;
    for fault in [
        WordsFault::OpenQuote,
        WordsFault::NothingEscaped,
        WordsFault::OutOfMemory,
    ] {
        answer = answer
            .shown(fault.number())
            .text(" ")
            .shown(fault)
            .text("\n");
    }
    answer
}

fn with_books(answer: AnswerBytes) -> AnswerBytes {
    let mut answer = answer;
    for fault in [
        BookFault::OutOfMemory,
        BookFault::Store(StoreFault::TooMany),
    ] {
        answer = answer
            .shown(fault.number())
            .text(" ")
            .shown(fault)
            .text("\n");
    }
    answer
}

fn with_hosts(answer: AnswerBytes) -> AnswerBytes {
    let mut answer = answer;
    for refusal in [
        HostRefusal::OutOfMemory,
        HostRefusal::Store(StoreFault::Damaged),
        HostRefusal::BadPath(PathFault::Empty),
        HostRefusal::NotStaged,
        HostRefusal::TooLarge,
        HostRefusal::TooMany,
        HostRefusal::NoConfig,
        HostRefusal::BadConfig(ConfigFault {
            kind: ConfigKind::Shape,
            at: 0,
        }),
        HostRefusal::NoSuchHook,
        HostRefusal::NothingStaged,
        HostRefusal::NoFixes,
        HostRefusal::EmptyMessage,
        HostRefusal::Collision,
        HostRefusal::Spent,
        HostRefusal::Clash,
    ] {
        answer = answer
            .shown(refusal.number())
            .text(" ")
            .shown(refusal)
            .text("\n");
    }
    answer
}
