//! The commands on the repository of the working folder.

ghost use Rattle.std.specs.Prelude.{◌≡◌, ◌⊎◌, false, IfErr, IfOk};
ghost use Rattle.hookhost.specs.Stops.{IsStopOfLookUp, IsStopOfOpening, IsStopOfUpdate};

use crate::colored_report::report_writer;
use crate::hint::is_heard;
use crate::line_files::{LineFiles, files_of};
use crate::message_file::{MessageFile, keep_message};
use crate::obstacle_lines::tell_trouble;
use crate::refusal_hints::{hint_after, need_of};
use crate::runs::RealChildren;
use crate::stop::{CommandStop, tell};
use crate::store_call::{ReportChoice, StoreCall, call_of};
use crate::tracked_store::distrust;
use crate::undone_fix::undone_fix;
use crate::unstaged_words::{is_folder_of_none, removal_of};
use child_port::{Children, TableChildren};
use commit_flow::{Command, Host, HostRefusal, MessageAsk};
use hook_base::{Items, OutOfMemory, Text};
use hook_cli::{
    ColorChoice, LookUp, MessageOver, Update, command_over, look_up_over, message_over,
};
use repository_files::{
    Before, DatabaseOver, Lock, keep_out_of_git, leave_database, look_at_store, open_database,
    open_store, take_lock,
};
use sqlite::{Alter, Connection};
use sqlite_disk::Disk;
use std::io::{self, Write};

// The exit status of a command that is done.
const DONE: u8 = 0;

// The exit status of a refused command.
const REFUSED: u8 = 3;

/// Looks something up in the repository, and returns the exit status, as `look_up_over` does. The errors are,
/// in this order: `RepositoryFault::CannotUseStore` if the store's file isn't there,
/// `RepositoryFault::CannotUseLock`, and what opening the store reports. In any case the folder is as it was,
/// with these exceptions: its lock, the log of a killed command, which is then in the database, and a store
/// of an earlier version, which is adopted.
pub(crate) fn look_up(rt: &HostRuntime, asked: LookUp) -> Result<u8, CommandStop>
    ensures status { IfOk result (λ status. (status ≡ 0) ⊎ (status ≡ 1) ⊎ (status ≡ 3)) }
    ensures stopped { IfErr result IsStopOfLookUp }
{
    look_at_store(rt)?;
    let lock = take_lock(rt)?;
    open_and_do(rt, &lock, StoreCall::LookUp(asked))
}

/// Makes a change of the repository, and returns the exit status, as `command_over` does. The errors come in
/// this order. The first is `RepositoryFault::CannotUseStore` if the store's file isn't there.
/// Then come what `files_of` reports of the file of `--paths-from` or of a message, and
/// `RepositoryFault::CannotUseLock`.
/// Then come what `call_of` reports of the files of `add` and of what runs of hooks need, and what opening
/// the store reports.
///
/// After an error or a refusal the folder is as it was, except for its lock and the folder of children.
/// Besides, the log of a killed command is then in the database, and a store of an earlier version is
/// adopted. An ignore file of an earlier program is replaced by a line in Git's own exclude list. After a
/// refused run or commit, what was answered by then is cached. The file of a message is replaced if hooks pass that
/// change it; if that fails, the exit status is 3.
pub(crate) fn change(rt: &HostRuntime, update: Update) -> Result<u8, CommandStop>
    ensures status { IfOk result (λ status. (status ≡ 0) ⊎ (status ≡ 1) ⊎ (status ≡ 3)) }
    ensures stopped { IfErr result (IsStopOfUpdate update) }
{
    look_at_store(rt)?;
    // Standard input may be what another command on this repository prints, so nothing is waited for under
    // the lock.
    let files = files_of(rt, &update)?;
    let lock = take_lock(rt)?;
    change_under(rt, &lock, update, files)
}

// Makes a change under the repository's lock.
fn change_under(
    rt: &HostRuntime,
    lock: &Lock,
    update: Update,
    files: LineFiles,
) -> Result<u8, CommandStop>
    ensures status { IfOk result (λ status. (status ≡ 0) ⊎ (status ≡ 1) ⊎ (status ≡ 3)) }
    ensures stopped { IfErr result (IsStopOfUpdate update) }
{
    // The ignore file of an earlier program would be above the files over which hooks run.
    keep_out_of_git(rt);
    let call = call_of(rt, update, files)?;
    open_and_do(rt, lock, call)
}

// Opens the database, and does what is asked of the store in it.
fn open_and_do(rt: &HostRuntime, lock: &Lock, call: StoreCall) -> Result<u8, CommandStop>
    ensures status { IfOk result (λ status. (status ≡ 0) ⊎ (status ≡ 1) ⊎ (status ≡ 3)) }
    ensures stopped { IfErr result IsStopOfOpening }
{
    let before = Before::found(rt, lock)?;
    let conn = open_database(rt, &before)?;
    do_over(rt, call, &before, conn)
}

// Does what is asked of the store in a database, and leaves the database. It is generic over the files
// because the same statements about the program's own files take the checker minutes.
fn do_over<D: Disk + Drop>(
    rt: &HostRuntime,
    call: StoreCall,
    before: &Before,
    conn: DatabaseOver<D>,
) -> Result<u8, CommandStop>
    requires outside { conn.in_transaction ≡ false }
    ensures status { IfOk result (λ status. (status ≡ 0) ⊎ (status ≡ 1) ⊎ (status ≡ 3)) }
    ensures stopped { IfErr result IsStopOfOpening }
{
    match do_in(rt, call, before, conn) {
        Ok((status, conn)) => {
            leave_database(rt, before, conn);
            Ok(status)
        }
        Err(stop) => Err(stop),
    }
}

// Does what is asked of the store in a database, whatever kind of storage that uses.
fn do_in<S: Alter + Drop>(
    rt: &HostRuntime,
    call: StoreCall,
    before: &Before,
    conn: Connection<S>,
) -> Result<(u8, Connection<S>), CommandStop>
    requires outside { conn.in_transaction ≡ false }
    ensures status { IfOk result (λ done. (done.0 ≡ 0) ⊎ (done.0 ≡ 1) ⊎ (done.0 ≡ 3)) }
    ensures stopped { IfErr result IsStopOfOpening }
{
    match open_store(rt, before, conn) {
        Ok(store) => {
            let mut host = Host::over(store);
            let undone = if is_heard(rt) {
                undone_fix(rt.alloc(), &call, host.store())
            } else {
                None
            };
            let need = need_of(&call);
            let status = answer(rt, call, &mut host);
            hint_after(rt, status, undone, need, host.store());
            Ok((status, host.into_store().into_connection()))
        }
        Err(fault) => Err(CommandStop::from(fault)),
    }
}

fn answer<S: Alter + Drop>(rt: &HostRuntime, call: StoreCall, host: &mut Host<S>) -> u8
    ensures { (result ≡ 0) ⊎ (result ≡ 1) ⊎ (result ≡ 3) }
{
    match call {
        StoreCall::LookUp(asked) => answer_look_up(rt, &asked, host),
        StoreCall::Command(command) => answer_command(rt, &command, host),
        StoreCall::HookCommand {
            command,
            shown,
            children,
        } => answer_hooks(rt, &command, shown, children, host),
        StoreCall::MessageHooks {
            ask,
            file,
            color,
            children,
        } => answer_message(rt, &ask, file, color, children, host),
        StoreCall::Unstage { words, is_listed } => unstage(rt, words.as_slice(), is_listed, host),
        StoreCall::Nothing => DONE,
    }
}

fn answer_look_up<S: Alter + Drop>(rt: &HostRuntime, asked: &LookUp, host: &Host<S>) -> u8
    ensures { (result ≡ 0) ⊎ (result ≡ 1) ⊎ (result ≡ 3) }
{
    let mut writer = io::writer(rt);
    look_up_over(rt.alloc(), asked, host, &mut writer, &mut rt.stderr())
}

// Does a command that runs no hooks.
fn answer_command<S: Alter + Drop>(rt: &HostRuntime, command: &Command, host: &mut Host<S>) -> u8
    ensures { (result ≡ 0) ⊎ (result ≡ 1) ⊎ (result ≡ 3) }
{
    let mut children = TableChildren::new(Items::new(rt.alloc()));
    let mut writer = io::writer(rt);
    do_command(rt, command, host, &mut children, &mut writer)
}

// Does a command that runs hooks.
fn answer_hooks<S: Alter + Drop>(
    rt: &HostRuntime,
    command: &Command,
    shown: ReportChoice,
    children: RealChildren,
    host: &mut Host<S>,
) -> u8
    ensures { (result ≡ 0) ⊎ (result ≡ 1) ⊎ (result ≡ 3) }
{
    if let Err(refusal) = distrust(rt, host) {
        return tell(rt, &CommandStop::RefusedCommand(refusal));
    }
    let mut children = children;
    if shown.has_durations {
        children.tell_durations();
    }
    let mut writer = report_writer(rt, shown.color, &mut children);
    let status = do_command(rt, command, host, &mut children, &mut writer);
    if status != REFUSED {
        tell_trouble(rt, &children);
    }
    status
}

// Runs hooks about a message, and replaces its file if they leave another one. The exit status is that of the
// hooks, or 3 if the file can't be replaced.
fn answer_message<S: Alter + Drop>(
    rt: &HostRuntime,
    ask: &MessageAsk,
    file: MessageFile,
    color: ColorChoice,
    children: RealChildren,
    host: &mut Host<S>,
) -> u8
    ensures { (result ≡ 0) ⊎ (result ≡ 1) ⊎ (result ≡ 3) }
{
    if let Err(refusal) = distrust(rt, host) {
        return tell(rt, &CommandStop::RefusedCommand(refusal));
    }
    let mut children = children;
    let mut writer = report_writer(rt, color, &mut children);
    let MessageOver { status, message } = message_over(
        rt.alloc(),
        ask,
        file.bytes.as_slice(),
        host,
        &mut children,
        &mut writer,
        &mut rt.stderr(),
    );
    if status != REFUSED {
        tell_trouble(rt, &children);
    }
    match keep_message(rt, file, message) {
        Ok(()) => status,
        Err(stop) => tell(rt, &stop),
    }
}

fn do_command<S: Alter + Drop, C: Children, W: Write>(
    rt: &HostRuntime,
    command: &Command,
    host: &mut Host<S>,
    children: &mut C,
    writer: &mut W,
) -> u8
    ensures { (result ≡ 0) ⊎ (result ≡ 1) ⊎ (result ≡ 3) }
{
    command_over(
        rt.alloc(),
        command,
        host,
        children,
        writer,
        &mut rt.stderr(),
    )
}

// Unstages what the words name.
fn unstage<S: Alter + Drop>(
    rt: &HostRuntime,
    words: &[Text],
    is_listed: bool,
    host: &mut Host<S>,
) -> u8
    ensures { (result ≡ 0) ⊎ (result ≡ 1) ⊎ (result ≡ 3) }
{
    match words.first() {
        Some(word) if is_folder_of_none(word, host.store()) => {
            refuse_folder_of_none(rt, word, is_listed || words.len() > 1)
        }
        _ => match removal_of(rt.alloc(), host.store(), words, is_listed) {
            Ok(Some(command)) => answer_command(rt, &command, host),
            Ok(None) => DONE,
            Err(OutOfMemory) => tell(rt, &CommandStop::RefusedCommand(HostRefusal::OutOfMemory)),
        },
    }
}

// Says that nothing is staged in the working folder, which the first word names, and if that word needn't be
// the only one also at which word.
fn refuse_folder_of_none(rt: &HostRuntime, word: &Text, is_one_of_several: bool) -> u8
    ensures { (result ≡ 0) ⊎ (result ≡ 1) ⊎ (result ≡ 3) }
{
    let status = tell(rt, &CommandStop::RefusedCommand(HostRefusal::NotStaged));
    if is_one_of_several {
        let name = word.as_str();
        let _said = eprintln!(rt; "hookhost: at {name}");
    }
    status
}
