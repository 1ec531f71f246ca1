//! The program `debplan` over a host: from the words of its command line to what it prints and its exit status. Each command is a
//! question (`cli_engine`, `keep_back`, `apply_engine`) that is asked of the files of the host; what is printed of the answer is
//! `outcomes`. The main call is `run`.
#![tactic(auto)]

mod applied;
mod archives;
mod arguments;
mod asking;
mod batch;
mod candidate_members;
mod files;
mod folder;
mod hearing;
mod host;
mod left_members;
mod members;
mod names;
mod one_file;
mod packages;
mod plan;
mod possible;
mod program;
mod refutations;
mod refuted;
mod reply;
mod reply_of_packages;
mod request;
mod told;
mod versions;

pub use conversation::Stream;
pub use files::{HostShelf, Openings, Paths, RefusalContext, TextAt, ask_files};
pub use host::{Host, PutError, Turn};
pub use inputs::{Progress, ReadError, ReadFailed, Settings, Source};
pub use outcomes::refuse_for_memory;
pub use program::run;
