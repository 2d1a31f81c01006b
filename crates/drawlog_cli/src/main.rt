//! The process `drawlog`: frames of a log, over the real folder.
//!
//! `drawlog -l LOG -g GROUP -s SIZE [-w WIDTH] [-p DECIMALS] [-f PLANE]`
//!
//! - `main` hands the words of the process to `drawlog` of `drawlog_top`, whose contract says what
//!   is done with them, and passes its status on. The words are those of docs/COMMANDS.md.
#![tactic(auto)]

use asked_words::{Status, given_words};
use drawlog_top::drawlog;
use room_edge::FolderRoom;
use std::env;
use std::process::ExitCode;

fn main(rt: HostRuntime) -> ExitCode {
    let alloc = rt.alloc();
    let Ok(words) = given_words(alloc, env::args(&rt), "drawlog") else {
        return ExitCode::from(Status::NoMemory.number());
    };
    let mut room = FolderRoom::new(rt);
    ExitCode::from(drawlog(alloc, &words, &mut room).number())
}
