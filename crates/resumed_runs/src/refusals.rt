// Words of saving and resuming that are refused.
use crate::rows::{Row, answers};
use crate::saved_models;
use memory_runs::models::USAGE;
use std::process::Abort;
use std::test::Fail;

/// The files that are there.
const FILES: [(&str, &str); 2] = [
    ("ring.ma", saved_models::RING),
    ("s.txt", saved_models::RING_STATE),
];

/// No file is made.
const UNMADE: [(&str, Option<&str>); 2] = [("ring.ma", None), ("s.txt", None)];

/// Words with a model that is made, with one name for two files, with two names, and with none.
const REFUSED_WORDS: [&str; 12] = [
    "cdpp -G 5 -t 00:00:00:100 -S s.txt",
    "cdpp -G 5 -t 00:00:00:100 -R s.txt",
    "cdpp -m ring.ma -t 00:00:00:200 -R s.txt -S s.txt",
    "cdpp -m ring.ma -t 00:00:00:200 -S ring.ma",
    "cdpp -m ring.ma -t 00:00:00:200 -R ring.ma",
    "cdpp -m ring.ma -t 00:00:00:200 -l s.txt -S s.txt",
    "cdpp -m ring.ma -t 00:00:00:200 -o s.txt -S s.txt",
    "cdpp -m ring.ma -t 00:00:00:200 -e s.txt -S s.txt",
    "cdpp -m ring.ma -t 00:00:00:200 -d s.txt -g line -S s.txt",
    "cdpp -m ring.ma -t 00:00:00:200 -l s.txt -R s.txt",
    "cdpp -m ring.ma -t 00:00:00:200 -S s.txt -S t.txt",
    "cdpp -m ring.ma -t 00:00:00:200 -R",
];

/// Runs these words, which are refused.
fn refuses(rt: &(impl Abort + AllocGlobal), words: &str) -> Result<(), Fail> {
    answers(
        rt,
        &Row {
            files: &FILES,
            words,
            status: 2,
            shown: "",
            complained: USAGE,
            made: &UNMADE,
        },
    )
}

#[test]
fn words_are_refused(rt: HostRuntime) -> Result<(), Fail> {
    for words in &REFUSED_WORDS {
        refuses(&rt, words)?;
    }
    Ok(())
}
