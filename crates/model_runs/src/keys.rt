// Keys of whole files, with enough memory.
use ma_lines::{Lines, Sections};
use model_keys::keys_refused;
use model_text::Kind;
use model_walk::{ReadSections, walk};
use std::alloc::Global;
use std::process::Abort;
use std::test::Fail;

const RIGHT: &[u8] =
    b"[top]\ncomponents : line q@queue\nin : a b\n[line]\ntype : cell\ndim : (1,3)\nstatevariables : n m\nstatevalues : 3 ?\nneighbors : line(0, -1) (0,0)\nlink : a in@line(0,0)\nlocaltransition : r\n[q]\npreparation : 0:0:1:0\n";

const PORT_AGAIN: &[u8] = b"[top]\ncomponents : q@queue\nin : a\nin : b a\n";

const DOUBLE_SPACE: &[u8] =
    b"[top]\ncomponents : line\n[line]\ntype : cell\ndim : (1,3)\nheight : 1\nlocaltransition : r\n";

const FEW_VALUES: &[u8] =
    b"[top]\ncomponents : line\n[line]\ntype : cell\ndim : (1,3)\nlocaltransition : r\nstatevariables : n m\nstatevalues : 3\n";

const PARAMETER_AGAIN: &[u8] =
    b"[top]\ncomponents : q@queue\n[q]\npreparation : 0:0:1:0\npreparation : 0:0:2:0\n";

/// Files, and how their keys are refused.
const FILES: [(&[u8], Option<(u32, Kind)>); 5] = [
    (RIGHT, None),
    (PORT_AGAIN, Some((4, Kind::BadValue))),
    (DOUBLE_SPACE, Some((5, Kind::BadValue))),
    (FEW_VALUES, Some((8, Kind::BadValue))),
    (PARAMETER_AGAIN, Some((5, Kind::DuplicateKey))),
];

/// How the keys of these sections are refused.
fn refused(alloc: Global, sections: &Sections) -> Result<Option<(u32, Kind)>, Fail> {
    let read = ReadSections::read(alloc, sections)?;
    let walked = walk(alloc, &read)?;
    Ok(match keys_refused(alloc, sections, &walked)? {
        Some(refused) => Some((refused.line, refused.kind)),
        None => None,
    })
}

/// Reads a file, and compares how its keys are refused.
fn is_refused(
    rt: &(impl Abort + AllocGlobal),
    file: &[u8],
    expected: Option<(u32, Kind)>,
) -> Result<(), Fail> {
    if file.len() > 1000 {
        return Err(Fail::new("a long file"));
    }
    let sections = Lines::read(rt.alloc(), file)
        .ok()
        .ok_or("a file that is read")?;
    assert_eq!(rt; refused(rt.alloc(), &sections)?, expected);
    Ok(())
}

#[test]
fn the_least_key_is_refused(rt: HostRuntime) -> Result<(), Fail> {
    for (file, expected) in &FILES {
        is_refused(&rt, file, *expected)?;
    }
    Ok(())
}
