//! The program: a citizens' assembly sortition office. `main` calls `office` over standard input and output, a keeper of files and a door
//! over a port, and has no contract of its own.
#![tactic(auto)]

mod given;

use command_office::{no_words, office};
use desk_log::LoggedDoor;
use office_keeper::SqliteKeeper;
use outside::{NoWatch, StdSink, StdSource, TcpDoor};
use std::process::ExitCode;

fn main(rt: HostRuntime) -> ExitCode {
    let mut source = StdSource::new(rt.stdin());
    let mut out = StdSink::new(rt.stdout());
    let mut errs = StdSink::new(rt.stderr());
    let mut keeper = SqliteKeeper::new(&rt);
    let words = given::given_words(&rt);
    let log = match &words {
        Ok(words) if given::ask_for_log(rt.alloc(), words) => Some(StdSink::new(rt.stderr())),
        _ => None,
    };
    let mut door = LoggedDoor::new(rt.alloc(), TcpDoor::new(&rt), log);
    let status = match words {
        Ok(words) => office(
            &rt,
            rt.alloc(),
            &words,
            &mut source,
            &mut out,
            &mut errs,
            &mut keeper,
            &mut door,
            &NoWatch,
        ),
        Err(error) => no_words(&mut errs, error.kind()).number(),
    };
    ExitCode::from(status)
}
