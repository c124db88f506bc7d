//! The program `tacho`.
#![tactic(auto)]

mod advice;
mod archive;
mod carrying;

use crate::archive::{Work, at_file};
use crate::carrying::carry_on;
use std::alloc::AllocError;
use std::env;
use std::io::{self, ErrorKind, IsTerminal};
use std::process::ExitCode;
use std::rt::Env;
use tacho_cli::{Asked, Job, Usage, asked_early, help_of, help_text, tell_answer, usage_text};
use tacho_desk::Fault;
use tacho_disk::card_files;
use tacho_serve::OfficeKey;
use tacho_sheet::SheetFault;
use tacho_state::Column;
use tacho_time::Device;

/// The arguments of the command line, including the program's name.
fn words(rt: &(impl Env + AllocGlobal)) -> io::Result<Vec<String>> {
    Ok(env::args(rt)?.collect(rt.alloc())?)
}

/// Prints the line of a fault, and returns the program's status. Allocates no memory.
fn refuse(rt: &HostRuntime, fault: Fault) -> u8 {
    tell_answer(&mut Device::new(rt.stdout()), &Err(fault))
}

/// Prints the line of a text that isn't a key, E9, and returns the program's status.
fn refuse_key(rt: &HostRuntime) -> u8 {
    refuse(rt, Fault::from(SheetFault::Column(Column::Key)))
}

/// Reports that memory ran out.
fn no_memory(rt: &HostRuntime) -> ExitCode {
    ExitCode::from(refuse(rt, Fault::Memory))
}

/// Shows how the program is used.
fn usage(rt: &impl Eprint, text: &str) -> ExitCode {
    let _ = eprint!(rt; "{text}");
    ExitCode::from(2)
}

/// Whether a job reads standard input.
fn has_input(job: Job<'_>) -> bool {
    match job {
        Job::Dump | Job::Holder | Job::Card { .. } | Job::Listen { .. } => true,
        Job::AtDesk(job) => job.wish.want.takes_input(),
        Job::Init { .. }
        | Job::Migrate { .. }
        | Job::Check { .. }
        | Job::Carry { .. }
        | Job::Serve { .. }
        | Job::Version => false,
    }
}

/// Does a job, and returns the program's status. Says so if it waits for somebody to type its input.
fn run(rt: &HostRuntime, job: Job<'_>) -> u8 {
    if has_input(job) && rt.stdin().is_terminal() {
        let _ = eprint!(rt; "tacho: reading standard input; end it with Ctrl-D\n");
    }
    let alloc = rt.alloc();
    let mut reader = Device::new(rt.stdin());
    let mut writer = Device::new(rt.stdout());
    match job {
        Job::Dump => tacho_cli::dump(alloc, &mut reader, &mut writer),
        Job::Holder => tacho_cli::holder(alloc, &mut reader, &mut writer),
        Job::Card { part } => tacho_cli::card(alloc, part, &mut reader, &mut writer),
        Job::Init { archive } => at_file(rt, archive, Work::Create),
        Job::Migrate { archive } => at_file(rt, archive, Work::Migrate),
        Job::Check { archive } => at_file(rt, archive, Work::Check),
        Job::Carry { archive, new, date } => carry_on(rt, archive, new, date),
        Job::AtDesk(job) => at_file(rt, job.archive, Work::Task(job)),
        Job::Serve {
            archive,
            key,
            port,
            count,
        } => match OfficeKey::new(key) {
            Some(key) => {
                let key = &key;
                at_file(rt, archive, Work::Serve { key, port, count })
            }
            None => refuse_key(rt),
        },
        Job::Listen {
            archive,
            port,
            count,
        } => match tacho_cli::office_key(alloc, &mut reader, &mut writer) {
            Ok(text) => match OfficeKey::new(text.as_str()) {
                Some(key) => {
                    let key = &key;
                    at_file(rt, archive, Work::Listen { key, port, count })
                }
                None => refuse_key(rt),
            },
            Err(status) => status,
        },
        Job::Version => tacho_cli::version(&mut writer),
    }
}

/// Prints a text.
#[inline(never)]
fn show(rt: &HostRuntime, text: Result<String, AllocError>) -> ExitCode {
    match text {
        Ok(text) => match print!(rt; "{}", text.as_str()) {
            Ok(()) => ExitCode::SUCCESS,
            Err(_) => ExitCode::from(3),
        },
        Err(_) => no_memory(rt),
    }
}

/// Imports the card files that arguments name.
#[inline(never)]
fn import(
    rt: &HostRuntime,
    words: &[String],
    archive: &str,
    part: &str,
    files: &[String],
) -> ExitCode {
    match card_files(rt, files) {
        Ok(names) if names.is_empty() => misused(rt, words, "no card file was found"),
        Ok(names) => ExitCode::from(at_file(
            rt,
            archive,
            Work::Import {
                part,
                names: &names,
            },
        )),
        Err(_) => no_memory(rt),
    }
}

/// Shows what is wrong with arguments, and how the command is used.
#[inline(never)]
fn misused(rt: &HostRuntime, words: &[String], cause: &str) -> ExitCode {
    match usage_text(rt.alloc(), cause, words) {
        Ok(text) => usage(rt, text.as_str()),
        Err(_) => no_memory(rt),
    }
}

/// Reads arguments. It isn't inlined, so that the parser's variables are on the stack only until it returns.
#[inline(never)]
fn job_of<'a>(rt: &HostRuntime, words: &'a [String]) -> Result<Job<'a>, Usage> {
    tacho_cli::parse(rt.alloc(), words)
}

/// Does what the parser finds in arguments.
fn parse(rt: &HostRuntime, words: &[String]) -> ExitCode {
    match job_of(rt, words) {
        Ok(job) => ExitCode::from(run(rt, job)),
        Err(Usage::Words(text)) => usage(rt, text.as_str()),
        Err(Usage::Numbers) => misused(
            rt,
            words,
            "PORT is a number from 1 to 65535, and COUNT one from 1 to 1000000",
        ),
        Err(Usage::Parser) => usage(rt, "tacho: no memory to read the arguments\n"),
        Err(Usage::Memory) => no_memory(rt),
    }
}

fn main(rt: HostRuntime) -> ExitCode {
    let words = match words(&rt) {
        Ok(words) => words,
        Err(error) if error.kind() == ErrorKind::OutOfMemory => return no_memory(&rt),
        Err(_) => return usage(&rt, "tacho: the arguments are not all UTF-8\n"),
    };
    match asked_early(&words) {
        Some(Asked::Help) => show(&rt, help_text(rt.alloc())),
        Some(Asked::HelpOf(name)) => show(&rt, help_of(rt.alloc(), name)),
        Some(Asked::Version) => {
            ExitCode::from(tacho_cli::version(&mut Device::new(rt.stdout())))
        }
        Some(
            Asked::Files {
                archive,
                part,
                files,
            },
        ) => import(&rt, &words, archive, part, files),
        None => parse(&rt, &words),
    }
}
