//! Laws of the definitions that the contracts cite. Each is a function that returns nothing: what it ensures
//! is a theorem about the definitions alone.

ghost use Rattle.std.specs.Prelude.{◌≡◌, ◌+◌, ◌-◌, ◌^◌, ◌≤◌, ℕ, true, false, All, Any, List, length, map};
ghost use Rattle.child_port.specs.Telling.{SameTells};
ghost use Rattle.result_book.specs.Told.{IsTold};
ghost use Rattle.hook_config.specs.declared.stage.Stage.{Stage};
ghost use Rattle.hook_run.specs.Answers.{IsCounted};
ghost use Rattle.hook_run.specs.Moments.{Moment};
ghost use Rattle.hook_run.specs.OneAnswer.{OneAnswer};
ghost use Rattle.hook_run.specs.Parts.{Part, faults_of};
ghost use Rattle.store_faults.specs.Limits.{IsSmall};
ghost use Rattle.repo_store.specs.Kept.{Kept};
ghost use Rattle.repo_store.specs.Repository.{Repository};
ghost use Rattle.repo_store.specs.Shown.{Leaves};
ghost use Rattle.repo_store.specs.StoreBooks.{remembered_by};
ghost use Rattle.repo_store.specs.declared.staging_edit.StagingEdit.{StagingEdit};
ghost use Rattle.sqlite_trees.specs.Tree.{Trees};
ghost use Rattle.commit_flow.specs.declared.command.Command.{Command};
ghost use Rattle.commit_flow.specs.declared.command.Command.TheVariants.{Commit, Message, Stage as StageEdits};
ghost use Rattle.commit_flow.specs.declared.host_refusal.HostRefusal.{HostRefusal};
ghost use Rattle.commit_flow.specs.declared.message_ask.MessageAsk.{MessageAsk};
ghost use Rattle.commit_flow.specs.declared.reply.PostCommit.{PostCommit};
ghost use Rattle.commit_flow.specs.declared.reply.Reply.{Reply};
ghost use Rattle.commit_flow.specs.declared.reply.Reply.TheVariants.{Committed, EditRefused, HooksFailed, Refused};
ghost use Rattle.commit_flow.specs.declared.staging_stop.StagingStop.{StagingStop};
ghost use Rattle.commit_flow.specs.CommitSteps.{SaysSpent, StandsOnAll};
ghost use Rattle.commit_flow.specs.MachineRuns.{IsRunWithoutMemory};
ghost use Rattle.commit_flow.specs.MessageLaws.{HasNoEarlierHook, IsCheckedThenMade, IsNotPrepared, IsPreparedThenMade};
ghost use Rattle.commit_flow.specs.Messages.{begun_message};
ghost use Rattle.commit_flow.specs.PlayLaws.{HasCommitted, PlayStarts, SaysCommitted};
ghost use Rattle.commit_flow.specs.Plays.{ArePlayed, IsPlay, RunsHooks};
ghost use Rattle.commit_flow.specs.StepLaws.{IsDecided, IsRunless};
ghost use Rattle.commit_flow.specs.Steps.{Step};
ghost use Rattle.commit_flow.specs.StoppedPlays.{AreSessions, LeavesSessions, Session};
ghost use Rattle.commit_flow.specs.TwoHosts.{IsSteady, IsUnhinderedPlay, IsUnhinderedRun, without_memory, without_number};

use child_port::Children;
use repo_store::Store;
use sqlite::Alter;

/// A command that neither runs hooks, nor forgets, nor sets a limit has at most one reply and leaves at most
/// one repository, unless memory or the database refuses, or contents collide. So the refusals of a command
/// come in one order, and none comes if the command could be done.
pub fn a_command_has_one_answer()
    ensures { (before after other : Repository) (command : Command) (reply second : Reply) (parts more : List Part)
        → Step before command reply parts after → Step before command second more other → IsRunless command
        → IsDecided reply → IsDecided second → (reply ≡ second) × (parts ≡ more) × (after ≡ other) }
{}

/// A command that is refused leaves the whole repository as it was, several changes that are refused too, and
/// hooks about a message in any case. The history changes only if the reply says that a commit was made. Then
/// there is one commit more: each stage before it passed, and its message is what they pass on, cleaned.
pub fn the_history_grows_by_commits_alone()
    ensures refused { (before after : Repository) (command : Command) (refusal : HostRefusal) (parts : List Part)
        → Step before command (Refused refusal) parts after → after ≡ before }
    ensures edits { (before after : Repository) (edits : List StagingEdit) (stop : StagingStop) (parts : List Part)
        → Step before (StageEdits edits) (EditRefused stop) parts after → after ≡ before }
    ensures message { (before after : Repository) (ask : MessageAsk) (message : List ℕ) (reply : Reply)
        (parts : List Part) → Step before (Message ask message) reply parts after → after ≡ before }
    ensures kept { (before after : Repository) (command : Command) (reply : Reply) (parts : List Part)
        → Step before command reply parts after → (¬ SaysCommitted reply) → after.history ≡ before.history }
    ensures committed { (before after : Repository) (command : Command) (number : ℕ) (reports : List (List ℕ))
        (post : PostCommit) (parts : List Part) → Step before command (Committed number reports post) parts after
        → HasCommitted before command after }
{}

/// A commit that bypasses hooks is [`Host::message`](crate::Host::message) for `prepare-commit-msg`, not
/// fresh and without options, on its message ended by a line feed unless empty, and then a commit of the
/// message that is left. It is made just if that call passes, the staged files aren't those of the last
/// commit, and the cleaned message may be committed. Its report is that of the call, and its parts those of
/// the call and of the hooks after it. If a hook fails before it, that call fails with the same report and
/// parts. The begun message must be of at most 16 MiB.
pub fn a_bypassing_commit_is_of_the_message_that_is_left()
    ensures made { (before : Repository) (message : List ℕ) (skip : List (List ℕ)) (after : Repository) (number : ℕ)
        (reports : List (List ℕ)) (post : PostCommit) (parts : List Part) → IsSmall (begun_message message)
        → Step before (Commit message true skip) (Committed number reports post) parts after
        → IsPreparedThenMade before message skip number reports post parts after }
    ensures possible { (before : Repository) (message : List ℕ) (skip : List (List ℕ)) (after : Repository) (number : ℕ)
        (reports : List (List ℕ)) (post : PostCommit) (parts : List Part)
        → IsPreparedThenMade before message skip number reports post parts after
        → Step before (Commit message true skip) (Committed number reports post) parts after }
    ensures failed { (before : Repository) (message : List ℕ) (skip : List (List ℕ)) (after : Repository)
        (stage : Stage) (reports : List (List ℕ)) (parts : List Part) → IsSmall (begun_message message)
        → Step before (Commit message true skip) (HooksFailed stage reports) parts after
        → IsNotPrepared before message skip reports parts }
{}

/// Let the configuration have no hook of `pre-commit`, and the staged files be a tree without the message's
/// file, as those of a store are. Then a commit is two calls of [`Host::message`](crate::Host::message), not
/// fresh and without options, and then a commit of the message that is left. The first is for
/// `prepare-commit-msg`, on the commit's message ended by a line feed unless empty, the second for
/// `commit-msg`, on what the first leaves. It is made just if both pass, the staged files aren't those of the
/// last commit, and the cleaned message may be committed. Its reports are an empty one and those of the
/// calls, and its parts those of the calls and of the hooks after it. No message on the way may have more
/// than 16 MiB, since a call refuses it.
pub fn a_commit_without_earlier_hooks_is_of_the_message_that_is_left()
    ensures made { (before : Repository) (message : List ℕ) (skip : List (List ℕ)) (after : Repository) (number : ℕ)
        (reports : List (List ℕ)) (post : PostCommit) (parts : List Part) → HasNoEarlierHook before
        → IsSmall (begun_message message)
        → Step before (Commit message false skip) (Committed number reports post) parts after
        → IsCheckedThenMade before message skip number reports post parts after }
    ensures possible { (before : Repository) (message : List ℕ) (skip : List (List ℕ)) (after : Repository) (number : ℕ)
        (reports : List (List ℕ)) (post : PostCommit) (parts : List Part) → HasNoEarlierHook before
        → (checked : IsCheckedThenMade before message skip number reports post parts after) → IsSmall checked.between
        → Step before (Commit message false skip) (Committed number reports post) parts after }
{}

/// The replies to a list of commands, and the repository that it leaves, are those of a host without a cache:
/// one that starts a child for each part of a hook, on the files as they are then. The outcomes are some that
/// the children may report. The law holds if they may report what is cached at first.
pub fn a_play_is_one_without_memory<C: Children>(children: &C)
    ensures { (from to : Moment) (before after : Repository) (commands : List Command) (replies : List Reply)
        → IsPlay (C.tells children.now) from to before commands replies after
        → IsTold (C.tells children.now) from.remembered
        → IsRunWithoutMemory (C.tells children.now) before commands replies after }
{}

/// A list of commands adds to the history only if a reply says that a commit was made.
pub fn a_play_without_commits_leaves_history<C: Children>(children: &C)
    ensures { (from to : Moment) (before after : Repository) (commands : List Command) (replies : List Reply)
        (parts : List Part) → ArePlayed (C.tells children.now) from to before commands replies parts after
        → All (λ reply. ¬ SaysCommitted reply) replies → after.history ≡ before.history }
{}

/// The children count at least the faults of the parts that the replies rest on. They count no others if each
/// reply rests on all that they reported for it.
pub fn a_play_counts_its_faults<C: Children>(children: &C)
    ensures at_least { (from to : Moment) (before after : Repository) (commands : List Command) (replies : List Reply)
        (parts : List Part) → ArePlayed (C.tells children.now) from to before commands replies parts after
        → from.faults + faults_of parts ≤ to.faults }
    ensures exactly { (from to : Moment) (before after : Repository) (commands : List Command) (replies : List Reply)
        (parts : List Part) → ArePlayed (C.tells children.now) from to before commands replies parts after
        → All StandsOnAll replies → to.faults ≡ from.faults + faults_of parts }
{}

/// Commands that run no hooks start no child.
pub fn a_play_without_hooks_starts_no_child<C: Children>(children: &C)
    ensures { (from to : Moment) (before after : Repository) (commands : List Command) (replies : List Reply)
        (parts : List Part) → ArePlayed (C.tells children.now) from to before commands replies parts after
        → All (λ command. ¬ RunsHooks command) commands → (to.calls ≡ from.calls) × (to.faults ≡ from.faults) }
{}

/// Commands that neither run hooks, nor forget, nor set a limit leave what is cached and the children's
/// counts as they were.
pub fn a_play_without_hooks_leaves_what_is_remembered<C: Children>(children: &C)
    ensures { (from to : Moment) (before after : Repository) (commands : List Command) (replies : List Reply)
        (parts : List Part) → ArePlayed (C.tells children.now) from to before commands replies parts after
        → All IsRunless commands → to ≡ from }
{}

/// Let each reply rest on all that was answered for it. Then only three things change what is cached: the
/// parts of a command, for some of which children were started; a command that forgets, which empties it; and
/// one that sets a limit, which drops what is beyond it. The children count just the started parts.
pub fn a_play_counts_what_it_starts<C: Children>(children: &C)
    ensures { (from to : Moment) (before after : Repository) (commands : List Command) (replies : List Reply)
        (parts : List Part) → ArePlayed (C.tells children.now) from to before commands replies parts after
        → All StandsOnAll replies → (started : List Part)
        × PlayStarts before from.remembered commands replies parts started to.remembered after
        × IsCounted from to started }
{}

/// If a reply says that the children are spent, they have reported 2^64 - 1 outcomes once all the commands
/// are done. They can't count more.
pub fn spent_only_at_the_last_count<C: Children>(children: &C)
    ensures { (from to : Moment) (before after : Repository) (commands : List Command) (replies : List Reply)
        (parts : List Part) → ArePlayed (C.tells children.now) from to before commands replies parts after
        → to.calls ≤ 2 ^ 64 - 1 → Any SaysSpent replies → to.calls ≡ 2 ^ 64 - 1 }
{}

/// Each command that is played has one reply.
pub fn a_played_command_has_one_reply<C: Children>(children: &C)
    ensures { (from to : Moment) (before after : Repository) (commands : List Command) (replies : List Reply)
        (parts : List Part) → ArePlayed (C.tells children.now) from to before commands replies parts after
        → length replies ≡ length commands }
{}

/// Let no words and seen files have two completed answers. Then a list of commands has one list of replies,
/// and leaves one repository. This means that two runs of the machine from one repository, over children that
/// may report the same outcomes, differ only in what replies say about the cache.
///
/// Each part must be one that the children may report, and no fault. No reply may be left open by memory, the
/// store, a configuration that can't be read, a collision, the count of children, or stopped hooks after a
/// commit.
pub fn commands_have_one_answer<C: Children, D: Children>(children: &C, others: &D)
    ensures { SameTells (C.tells children.now) (D.tells others.now) → OneAnswer (C.tells children.now)
        → (before after other : Repository) (commands : List Command) (replies seconds : List Reply)
        (parts more : List Part) → IsUnhinderedRun (C.tells children.now) before commands replies parts after
        → IsUnhinderedRun (D.tells others.now) before commands seconds more other
        → (map without_memory replies ≡ map without_memory seconds) × (after ≡ other) }
{}

/// Let no words and seen files have two completed answers. Two hosts play the same commands on equal
/// repositories, over children that may report the same outcomes, and all that each host has cached at first.
/// If no fault is counted, and no reply is left open as in [`commands_have_one_answer`], they give one
/// answer: equal replies, except for how many answers were forgotten or are left, and equal repositories. In
/// any case no reply of a run names an unsteady hook.
pub fn two_hosts_give_one_answer<C: Children, D: Children>(children: &C, others: &D)
    ensures same { SameTells (C.tells children.now) (D.tells others.now) → OneAnswer (C.tells children.now)
        → (from to start end : Moment) (before after other : Repository) (commands : List Command)
        (replies seconds : List Reply) → IsUnhinderedPlay (C.tells children.now) from to before commands replies after
        → IsUnhinderedPlay (D.tells others.now) start end before commands seconds other
        → (map without_number replies ≡ map without_number seconds) × (after ≡ other) }
    ensures steady { OneAnswer (C.tells children.now)
        → (from to : Moment) (before after : Repository) (commands : List Command) (replies : List Reply)
        → IsPlay (C.tells children.now) from to before commands replies after
        → IsTold (C.tells children.now) from.remembered → All IsSteady replies }
{}

/// However often a list of commands is stopped, and goes on once the store is opened again, nothing of the
/// repository is half done, and no change of it that was done is lost. Each session makes, of the repository
/// that the one before it left, a first stretch of its commands with the replies that it gave. Then it may
/// make the next command too, by parts that were answered for it. A commit is made only if each stage before
/// it passed. And each answer that is cached in the end is one that the children may report.
///
/// A session opens what a stop left of the one before it, plays commands as [`Host::play`](crate::Host::play)
/// does, and is stopped within a command, between two, or not at all. The law holds on a disk that returns
/// what was written to it, and if the children may report what is cached at first.
pub fn stopped_sessions_lose_nothing<C: Children, S: Alter>(children: &C, store: &Store<S>)
    ensures { (found left : Trees) (sessions : List Session) (kept : Kept) → Leaves kept found
        → IsTold (C.tells children.now) (remembered_by kept)
        → AreSessions S.Store (C.tells children.now) found sessions left
        → LeavesSessions (C.tells children.now) kept.repo sessions left }
{}
