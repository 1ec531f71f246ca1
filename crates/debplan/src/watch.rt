// How far an answer is, shown on a terminal.
use cli::Progress;
use std::alloc::AllocError;
use std::fs;
use std::io::Write;
use std::time::Instant;

// The standard error of this process.
const STANDARD_ERROR: &str = "/proc/self/fd/2";

/// Who is shown how far an answer is: a line of standard error that is written over once a second, where that is a terminal.
#[derive(Drop)]
pub(crate) struct Watch {
    begun: Option<Begun>,
    is_over: bool,
}

// When the first was shown, and how many seconds after it the last one was.
#[derive(Clone, Copy, Drop)]
struct Begun {
    at: Instant,
    shown: u64,
}

impl Watch {
    /// Nothing was shown.
    pub(crate) fn new() -> Watch {
        Watch {
            begun: None,
            is_over: false,
        }
    }

    /// Shows it, where a second has passed since the last was, and takes the line away once the answer is there. Nothing is shown where
    /// standard error is no terminal, and where the clock or memory fails.
    pub(crate) fn show(&mut self, rt: &HostRuntime, progress: Progress) {
        if self.is_over {
            return;
        }
        match self.begun {
            None => self.begin(rt),
            Some(begun) => self.go_on(rt, begun, progress),
        }
    }

    // Begins where standard error is a terminal.
    fn begin(&mut self, rt: &HostRuntime) {
        match Instant::now(rt) {
            Ok(at) if is_terminal(rt) => self.begun = Some(Begun { at, shown: 0 }),
            _ => self.is_over = true,
        }
    }

    // Shows it where a second has passed, or takes the line away.
    fn go_on(&mut self, rt: &HostRuntime, begun: Begun, progress: Progress) {
        if is_last(progress) {
            self.is_over = true;
            write_over(rt, "");
            return;
        }
        let Ok(elapsed) = begun.at.elapsed(rt) else {
            return;
        };
        let seconds = elapsed.as_secs();
        if seconds > begun.shown {
            self.begun = Some(Begun {
                at: begun.at,
                shown: seconds,
            });
            let _untold = tell(rt, progress, seconds);
        }
    }
}

// Whether nothing more is to come.
fn is_last(progress: Progress) -> bool {
    match progress {
        Progress::Packages { answered, all, .. } => answered >= all,
        Progress::Goals { .. } => false,
        Progress::Over => true,
    }
}

// Whether standard error leads to a terminal (pts(4), tty(4)).
fn is_terminal(rt: &HostRuntime) -> bool {
    match fs::canonicalize(rt, STANDARD_ERROR) {
        Ok(path) => {
            let path = path.as_str();
            path.starts_with("/dev/pts/") || path.starts_with("/dev/tty") || path == "/dev/console"
        }
        Err(_) => false,
    }
}

// Writes how far the answer is after so many seconds.
fn tell(rt: &HostRuntime, progress: Progress, seconds: u64) -> Result<(), AllocError> {
    let line = match progress {
        Progress::Packages {
            answered,
            all,
            refuted,
        } => {
            let left = minutes_left(answered as u64, all as u64, seconds);
            format!(in rt.alloc();
                "checked {answered} of {all}, broken {refuted}, {left} min left"
            )?
        }
        Progress::Goals { left_out, all } => {
            format!(in rt.alloc(); "kept back {left_out} of {all} goals, after {seconds} s")?
        }
        Progress::Over => return Ok(()),
    };
    write_over(rt, line.as_str());
    Ok(())
}

// How many minutes the others take, at the pace of those that are answered, rounded up.
fn minutes_left(answered: u64, all: u64, seconds: u64) -> u64 {
    let others = all.saturating_sub(answered);
    match others.saturating_mul(seconds).checked_div(answered) {
        Some(left) => left.div_ceil(60),
        None => 0,
    }
}

// Writes the words in the place of the line's (ECMA-48: carriage return, and erase in line). A failure changes nothing.
fn write_over(rt: &HostRuntime, words: &str) {
    let mut err = rt.stderr();
    let _unwritten = err.write_all(b"\r\x1b[K");
    let _unwritten_words = err.write_all(words.as_bytes());
    let _unflushed = err.flush();
}
