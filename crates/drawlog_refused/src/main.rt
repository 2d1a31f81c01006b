//! The process `drawlog` once more, which the gate runs with words that are refused (plane 4 of
//! planes 0 to 3), since a program has one stored run.
//!
//! - `main` is that of `drawlog_cli`: it passes status 2 on and shows nothing on the standard
//!   output.
#![tactic(auto)]

use asked_words::{Status, given_words};
use drawlog_top::drawlog;
use room_edge::FolderRoom;
use std::env;
use std::process::ExitCode;

fn main(rt: HostRuntime) -> ExitCode {
    let alloc = rt.alloc();
    let Ok(words) = given_words(alloc, env::args(&rt), "drawlog") else {
        return ExitCode::from(Status::NoMemory.number());
    };
    let mut room = FolderRoom::new(rt);
    ExitCode::from(drawlog(alloc, &words, &mut room).number())
}
