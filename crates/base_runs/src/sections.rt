// Whole files as they are cut into sections.
use ma_lines::{Lines, Section, Sections};
use std::alloc::{AllocError, Global};
use std::process::Abort;
use std::test::Fail;

const LIFE: &[u8] =
    b"[Top]\ncomponents : Life\n[Life]          % Conway\ntype : cell\nwidth : 5\nheight : 5\ndelay : transport\ndefaultDelayTime : 100\nborder : wrapped\nneighbors : life(-1,-1) life(-1,0) life(-1,1)\nneighbors : life(0,-1) life(0,0) life(0,1)\nneighbors : life(1,-1) life(1,0) life(1,1)\ninitialvalue : 0\ninitialrowvalue : 2 01110\nlocaltransition : life-rule\n[life-rule]\nrule : 1 100 { (0,0) = 1 and\n   (trueCount = 3 or trueCount = 4) }\nrule : 1 100 { (0,0) = 0 and trueCount = 3 }\nrule : 0 100 { t }\n";

const LIFE_LISTED: &[u8] =
    b"1 [top]\n2 components=life\n3 [life]\n4 type=cell\n5 width=5\n6 height=5\n7 delay=transport\n8 defaultdelaytime=100\n9 border=wrapped\n10 neighbors=life(-1,-1) life(-1,0) life(-1,1)\n11 neighbors=life(0,-1) life(0,0) life(0,1)\n12 neighbors=life(1,-1) life(1,0) life(1,1)\n13 initialvalue=0\n14 initialrowvalue=2 01110\n15 localtransition=life-rule\n16 [life-rule]\n17 rule=1 100 { (0,0) = 1 and (truecount = 3 or truecount = 4) }\n19 rule=1 100 { (0,0) = 0 and truecount = 3 }\n20 rule=0 100 { t }\n";

const RING: &[u8] =
    b"[TOP]\nCOMPONENTS : LINE\n[LINE]\nTYPE : CELL\nDIM : (1,3) % x\nDELAY : TRANSPORT\nDEFAULTDELAYTIME : 100\nBORDER : WRAPPED\nNEIGHBORS : LINE(0,-1) LINE(0,0) LINE(0,1)\nINITIALVALUE : 0\nINITIALROWVALUE : 0 010\nLOCALTRANSITION : R\n[R]\nRULE : 1 100 {\nTRUECOUNT = 1 }\nRULE : 0 100 { T }\n";

const RING_LISTED: &[u8] =
    b"1 [top]\n2 components=line\n3 [line]\n4 type=cell\n5 dim=(1,3)\n6 delay=transport\n7 defaultdelaytime=100\n8 border=wrapped\n9 neighbors=line(0,-1) line(0,0) line(0,1)\n10 initialvalue=0\n11 initialrowvalue=0 010\n12 localtransition=r\n13 [r]\n14 rule=1 100 { truecount = 1 }\n16 rule=0 100 { t }\n";

fn list(alloc: Global, text: &mut Vec<u8>, line: u32, parts: &[&[u8]]) -> Result<(), AllocError> {
    let number = format!(in alloc; "{line} ")?;
    text.extend_from_slice(number.as_bytes())?;
    for part in parts {
        text.extend_from_slice(part)?;
    }
    text.extend_from_slice(b"\n")
}

/// A section, one thing a line: `number [name]`, and `number key=value`.
fn list_section(alloc: Global, text: &mut Vec<u8>, section: &Section) -> Result<(), AllocError> {
    let name: [&[u8]; 3] = [b"[", section.name.as_bytes(), b"]"];
    list(alloc, text, section.line, &name)?;
    for entry in &section.entries {
        let parts: [&[u8]; 3] = [entry.key.as_bytes(), b"=", entry.value.as_bytes()];
        list(alloc, text, entry.line, &parts)?;
    }
    Ok(())
}

/// The sections, one after another.
fn list_all(alloc: Global, text: &mut Vec<u8>, sections: &Sections) -> Result<(), AllocError> {
    for at in 0..sections.len() {
        list_section(alloc, text, sections.section(at))?;
    }
    Ok(())
}

/// Files, and how they are listed.
const FILES: [(&[u8], &[u8]); 3] = [(LIFE, LIFE_LISTED), (RING, RING_LISTED), (b"", b"")];

fn is_listed(rt: &(impl Abort + AllocGlobal), file: &[u8], expected: &[u8]) -> Result<(), Fail> {
    if file.len() > 1000 {
        return Err(Fail::new("a long file"));
    }
    let sections = Lines::read(rt.alloc(), file)
        .ok()
        .ok_or("a file that is read")?;
    let mut text = Vec::new(rt.alloc());
    list_all(rt.alloc(), &mut text, &sections)?;
    assert_eq!(rt; text.as_slice(), expected);
    Ok(())
}

#[test]
fn whole_files_are_listed(rt: HostRuntime) -> Result<(), Fail> {
    for (file, expected) in &FILES {
        is_listed(&rt, file, expected)?;
    }
    Ok(())
}

/// Names, and where their sections stand in the ring.
const NAMES: [(&[u8], Option<usize>); 5] = [
    (b"top", Some(0)),
    (b"line", Some(1)),
    (b"r", Some(2)),
    (b"t", None),
    (b"TOP", None),
];

fn are_found(rt: &impl Abort, sections: &Sections) {
    for (name, at) in &NAMES {
        assert_eq!(rt; sections.find(name), *at);
    }
}

#[test]
fn each_section_is_found(rt: HostRuntime) -> Result<(), Fail> {
    let sections = Lines::read(rt.alloc(), RING)
        .ok()
        .ok_or("a file that is read")?;
    are_found(&rt, &sections);
    Ok(())
}
