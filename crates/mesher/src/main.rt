// Runs a script of calls on the library and prints an answer a line. Nothing is decided here: words are read, calls made, answers printed.
#![tactic(auto)]

mod answer;
mod lines;
mod refusal;
mod session;

use crate::answer::Answer;
use crate::lines::read;
use crate::refusal::Refusal;
use crate::session::Session;
use anyhow::anyhow;
use std::{env, fs, io};

// The script: the file that the one argument names, or else standard input.
fn script(rt: &HostRuntime) -> anyhow::Result<String> {
    let mut args = env::args(rt)?;
    let _program = args.next();
    let Some(path) = args.next() else {
        return Ok(io::read_to_string(rt.alloc(), rt.stdin())?);
    };
    if args.next().is_some() {
        return Err(anyhow!("usage: mesher [FILE]"));
    }
    Ok(fs::read_to_string(rt, path.as_str())?)
}

// What a line is answered, by its number and its text; nothing where it asks for nothing.
fn reply<'s, 'a>(
    rt: &HostRuntime,
    session: &'s mut Session,
    number: usize,
    line: &'a str,
) -> Result<Option<Answer<'s>>, Refusal<'a>> {
    match read(rt.alloc(), number, line)? {
        Some(request) => session.answer(rt, request).map(Some),
        None => Ok(None),
    }
}

fn run(rt: &HostRuntime) -> anyhow::Result<()> {
    let text = script(rt)?;
    let mut session = Session::new(rt.alloc())?;
    for (number, line) in (1..).zip(text.lines()) {
        match reply(rt, &mut session, number, line) {
            Ok(None) => (),
            Ok(Some(answer)) => rt.println(answer)?,
            Err(refusal) => rt.println(refusal)?,
        }
    }
    Ok(())
}

fn main(rt: HostRuntime) -> anyhow::Result<()> {
    run(&rt)
}
