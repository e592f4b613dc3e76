//! Children that are real processes: `ProcessChildren` implements the trait `Children` with the system's
//! programs and files.
//!
//! One call has four steps (`child_runner`). First the scratch folder is made to hold the files of the tree,
//! the folder `.git`, links to what is installed, and nothing else (`kept_folder`, `links`). What doesn't
//! belong there is removed (`stray_files`, `trash`), and what is as it would be made stays (`new_file_modes`).
//! Then the words are started in it (`start`). Both outputs are read at the same time to their ends, and the
//! child is waited for (`outputs`, `ending`). Last, the files are read back (`read_back`). The first fault
//! decides, except that a call which was recorded meanwhile takes precedence over how the child ended.
//!
//! Each file is found and opened in its folder, which is held open meanwhile (`own_files`, `held_folder`). So
//! no process can put a link or a fifo between a look and what is done there. The scratch folder itself is
//! held while its child runs, and has to be at its place once the files are read back (`laid_folder`). What
//! is in the way is reported by a `Obstacle`, and the first one is kept (`first_troubles`).
//!
//! Both walks over the files read only those that a process can have changed since they were read
//! (`known_files`). This shows in the metadata of each (`stamp`), and in what the times of files show in this
//! run (`file_ages`) and on this file system (`file_system`).
//!
//! Children may be asked ahead of their turns (`ahead`), of which several run at once (`side_by_side`). Each has a
//! scratch folder of its own (`run_folders`), of whose files other things are known (`known_in_folders`). Those of
//! a large tree first share one (`together`): their answers are kept only if none of them changed anything
//! there, which another may have found (`last_change`). An answer is given in its turn, if the tree is still the
//! same then. A program that children call may work in the folder of the turns alone, as Git's does. Then that
//! is only for the child of the turn, and what calls the program elsewhere runs again in its turn.
//!
//! Before the first call a folder is taken that no other run uses (`scratch_folder`). The file of `run_mark`
//! says so. `removal` removes what a run left that a signal ended, and `input` shows whether a child of such
//! a run is still alive.
//!
//! What a process does can't be known beforehand. So the contracts speak of the counts alone, in the terms of
//! `child_port`: any outcome may be reported (`specs/Anything.antt`).
#![tactic(auto)]

mod ahead;
mod child_runner;
mod contents;
mod disk_paths;
mod ending;
mod file_ages;
mod file_system;
mod first_troubles;
mod folders;
mod held_folder;
mod input;
mod kept_folder;
mod known_files;
mod known_in_folders;
mod laid_folder;
mod last_change;
mod links;
mod new_file_modes;
mod obstacle;
mod outputs;
mod own_files;
mod process_children;
mod processors;
mod read_back;
mod removal;
mod run_folders;
mod run_mark;
mod scratch_folder;
mod search;
mod side_by_side;
mod stamp;
mod start;
mod stop;
mod stray_files;
mod together;
mod trash;

pub use obstacle::Obstacle;
pub use process_children::ProcessChildren;
pub use processors::usable_processors;
