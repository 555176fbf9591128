//! The program `conform`: it gives `run` the words of the command line, the current folder, the standard streams and
//! threads, and ends with its status.
//!
//! # What it is for
//!
//! `rt build` makes the program of it. Nothing stands on it.
//!
//! # What a contract sees
//!
//! That of `run`: a desk, an output, an error output and words. The system's own are a `FolderDesk` and two
//! `StreamSink`s.
//!
//! # What is proved
//!
//! That it returns, without a panic; all else is `run`'s.
//!
//! # What is only tested
//!
//! What it does around `run`: by the stored run and by `tests/whole_runs.py`. That it gives `run` the system's words
//! and streams, and ends with its status, is neither proved nor tested by itself.
#![tactic(auto)]

ghost use Rattle.std.specs.Prelude.{◌≡◌, drop};
ghost use Rattle.std.specs.declared.io.ErrorKind.TheVariants.{OutOfMemory};

use cs_fan::OpenGate;
use cs_io::{FolderDesk, StreamSink};
use cs_run::run;
use std::process::ExitCode;
use std::rt::Env;
use std::{env, io};

// The statuses where the system doesn't give the program's words: for want of memory, and for another reason.
const NO_MEMORY: u8 = 5;

const NO_WORDS: u8 = 7;

fn main(rt: HostRuntime) -> ExitCode {
    let alloc = rt.alloc();
    let status = match arguments(&rt) {
        Ok(words) => {
            let mut desk = FolderDesk::new(&rt);
            let mut out = StreamSink::new(rt.stdout());
            let mut err = StreamSink::new(rt.stderr());
            run(&rt, alloc, &words, &mut desk, &mut out, &mut err, &OpenGate)
        }
        Err(error) => status_without_words(error.kind()),
    };
    ExitCode::from(status)
}

// The program's arguments without its own name.
fn arguments(rt: &(impl Env + AllocGlobal)) -> io::Result<Vec<String>> {
    let words = env::args(rt)?.collect(rt.alloc())?;
    Ok(without_first(words))
}

fn without_first(words: Vec<String>) -> Vec<String>
    ensures { result.items ≡ drop 1 words.items }
{
    let mut words = words;
    if !words.is_empty() {
        let _ = words.remove(0);
    }
    words
}

fn status_without_words(kind: io::ErrorKind) -> u8
    ensures memory { kind ≡ OutOfMemory → result ≡ 5 }
    ensures other { ¬ (kind ≡ OutOfMemory) → result ≡ 7 }
{
    if kind == io::ErrorKind::OutOfMemory {
        NO_MEMORY
    } else {
        NO_WORDS
    }
}
