// The command `closing`: reads a journal of calls, carries each out, and prints what each gave.
#![tactic(auto)]

mod answer;
mod clerk;
mod help;
mod market;
mod page;
mod stop;

use clerk::Clerk;
use help::HELP;
use std::fs::File;
use std::io::{BufRead, BufReader, BufWriter, Write};
use std::process::ExitCode;
use std::{env, fs, io};
use stop::{Input, Stop, written};

fn main(rt: HostRuntime) -> ExitCode {
    match work(&rt) {
        Ok(()) => ExitCode::SUCCESS,
        Err(stop) => {
            let _ = eprintln!(rt; "{stop}");
            ExitCode::FAILURE
        }
    }
}

fn work(rt: &HostRuntime) -> Result<(), Stop> {
    let mut out = written(BufWriter::new(rt.alloc(), rt.stdout()))?;
    let outcome = run(rt, &mut out);
    outcome.and(written(out.flush()))
}

fn run<W: Write>(rt: &HostRuntime, out: &mut W) -> Result<(), Stop> {
    let files = files(rt)?;
    if asks_for_help(files.as_slice()) {
        return written(write!(out, "{HELP}"));
    }
    let mut clerk = Clerk::new(rt.alloc(), out);
    read(rt, files, &mut clerk)?;
    clerk.close()
}

// The files one after another; with no file, standard input.
fn read<W: Write>(
    rt: &HostRuntime,
    files: Vec<String>,
    clerk: &mut Clerk<'_, W>,
) -> Result<(), Stop> {
    if files.is_empty() {
        let lines = BufReader::new(rt.alloc(), rt.stdin());
        return work_through(Input::Standard, lines, clerk);
    }
    for file in files {
        let lines = lines_of(rt, file.as_str());
        work_through(Input::File(file), lines, clerk)?;
    }
    Ok(())
}

fn asks_for_help(files: &[String]) -> bool {
    matches!(files, [only] if matches!(only.as_str(), "--help" | "-h"))
}

fn files(rt: &HostRuntime) -> Result<Vec<String>, Stop> {
    given(rt).map_err(|why| Stop::NoArguments { why })
}

// The arguments after the program's name.
fn given(rt: &HostRuntime) -> io::Result<Vec<String>> {
    Ok(env::args(rt)?.skip(1).collect(rt.alloc())?)
}

fn lines_of(rt: &HostRuntime, file: &str) -> io::Result<BufReader<File>> {
    BufReader::new(rt.alloc(), fs::open(rt, file)?)
}

fn work_through<R: BufRead + Drop, W: Write>(
    input: Input,
    lines: io::Result<R>,
    clerk: &mut Clerk<'_, W>,
) -> Result<(), Stop> {
    match lines {
        Ok(mut lines) => clerk.work_through(input, &mut lines),
        Err(why) => Err(Stop::Unreadable { input, why }),
    }
}
