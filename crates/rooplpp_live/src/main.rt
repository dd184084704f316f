//! The program: it holds a run open over files, standard input and standard output.
#![tactic(auto)]

use live_command::{FileShelf, InAsker, OutSink, live};
use std::io::{BufReader, ErrorKind};
use std::process::ExitCode;
use std::{env, io};

const NO_MEMORY: u8 = 7;

fn main(rt: HostRuntime) -> ExitCode {
    let words = match words(&rt) {
        Ok(words) => words,
        Err(e) if e.kind() == ErrorKind::OutOfMemory => return ExitCode::from(NO_MEMORY),
        // An argument that is no text: no session begins with it.
        Err(_) => Vec::new(rt.alloc()),
    };
    ExitCode::from(answer(&rt, &words))
}

// The program's arguments, without its name.
fn words(rt: &HostRuntime) -> io::Result<Vec<String>> {
    let words = env::args(rt)?.skip(1).collect(rt.alloc())?;
    Ok(words)
}

// Makes the ports, and holds the session. If there is no memory for a buffer, it does nothing.
fn answer(rt: &HostRuntime, words: &[String]) -> u8 {
    let Ok(reader) = BufReader::new(rt.alloc(), rt.reader()) else {
        return NO_MEMORY;
    };
    let mut shelf = FileShelf::new(rt);
    let mut asker = InAsker::new(rt.alloc(), reader);
    let mut out = OutSink::new(rt);
    live(rt.alloc(), words, &mut shelf, &mut asker, &mut out)
}
