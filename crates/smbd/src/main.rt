//! The program `smbd`: hands its words, standard input, standard output and standard error to the top call.
#![tactic(auto)]

use smbd_cli::{Word, run};
use smbd_outside::{ReadSource, Status, WriteSink};
use std::env;
use std::io::ErrorKind;
use std::process::ExitCode;
use std::rt::Env;

fn main(rt: HostRuntime) -> ExitCode {
    let status = match words(&rt) {
        Ok(words) => run(
            &rt,
            rt.alloc(),
            &words,
            &mut ReadSource::over(rt.stdin()),
            &mut WriteSink::over(rt.stdout()),
            &mut WriteSink::over(rt.stderr()),
        ),
        Err(status) => status,
    };
    // A fault of this print is ignored: the exit status tells the same.
    let _ = eprint!(rt; "{}", status.text());
    ExitCode::from(status.code())
}

/// The words after the program's name. One that isn't UTF-8 is a usage fault.
fn words(rt: &(impl Env + AllocGlobal)) -> Result<Vec<Word>, Status> {
    let texts = match env::args(rt) {
        Ok(texts) => texts,
        Err(error) if error.kind() == ErrorKind::OutOfMemory => return Err(Status::NoMemory),
        Err(_) => return Err(Status::Usage),
    };
    let mut words = Vec::new(rt.alloc());
    for text in texts.skip(1) {
        let Ok(word) = Word::copy_of(rt.alloc(), text.as_str()) else {
            return Err(Status::NoMemory);
        };
        if words.push(word).is_err() {
            return Err(Status::NoMemory);
        }
    }
    Ok(words)
}
