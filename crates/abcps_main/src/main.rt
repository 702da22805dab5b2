//! Sets a book of tunes as pages: passes the words and the standard streams to the top call, and exits with its
//! status. If the words can't be obtained, the status is that of `refuse_words`.
#![tactic(auto)]

use abcps::{NoGate, WordsError, refuse_words, run};
use eng_io::{StdSink, StdSource};
use std::env;
use std::process::ExitCode;

/// Returns the words after the program's name.
fn given_words(rt: &HostRuntime) -> Result<Vec<String>, WordsError> {
    let words = env::args(rt)?.skip(1).collect(rt.alloc())?;
    Ok(words)
}

fn main(rt: HostRuntime) -> ExitCode {
    let mut input = StdSource::new(rt.stdin());
    let mut output = StdSink::new(rt.stdout());
    let mut errors = StdSink::new(rt.stderr());
    let status = match given_words(&rt) {
        Ok(words) => run(
            &rt,
            rt.alloc(),
            words.as_slice(),
            &mut input,
            &mut output,
            &mut errors,
            &NoGate,
        ),
        Err(why) => refuse_words(why, &mut errors),
    };
    ExitCode::from(status.number())
}
