//! The program `debplan`: `cli::run` over the machine's own files, with its words and its streams.
#![tactic(auto)]

mod folder;
mod journal_file;
mod leftovers;
mod machine;
mod output;
mod places;
mod read_files;
mod watch;
mod words;

use cli::{Stream, refuse_for_memory, run};
use machine::Machine;
use std::alloc::AllocError;
use std::process::ExitCode;
use words::words_of;

fn main(rt: HostRuntime) -> ExitCode {
    let mut out = Stream::new(rt.stdout());
    let mut err = Stream::new(rt.stderr());
    let status = match words_of(&rt) {
        Ok(words) => {
            let mut machine = Machine::new(&rt);
            run(
                rt.alloc(),
                words.as_slice(),
                &mut machine,
                &mut out,
                &mut err,
            )
        }
        Err(AllocError) => refuse_for_memory(&mut err),
    };
    ExitCode::from(status)
}
