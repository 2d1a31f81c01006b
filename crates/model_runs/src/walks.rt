// A walk, with enough memory.
use ma_lines::{Lines, Sections};
use model_walk::{MetComponent, MetSection, ReadSections, Walked, walk};
use std::alloc::AllocError;
use std::process::Abort;
use std::test::Fail;

const MODEL: &[u8] =
    b"[top]\ncomponents : a line\n[line]\ntype : cell\n[b]\ncomponents : c@cpu\n[a]\ncomponents : q@queue\ncomponents : b\n";

/// Puts the names of the sections behind a text, then the items.
fn list(text: &mut Vec<u8>, walked: &Walked<'_, '_>) -> Result<(), AllocError> {
    for section in &walked.sections {
        text.extend_from_slice(section.section().name.as_bytes())?;
        text.push(b' ')?;
    }
    for item in &walked.items {
        text.push(b' ')?;
        text.extend_from_slice(item.text)?;
    }
    Ok(())
}

/// Puts the name of a section behind a text, then in brackets what stands in it; `@` is an atomic
/// component.
fn show(text: &mut Vec<u8>, met: &MetSection<'_, '_>) -> Result<(), AllocError> {
    text.extend_from_slice(met.section.section().name.as_bytes())?;
    text.push(b'(')?;
    for component in &met.components {
        match component {
            MetComponent::Atomic => text.push(b'@')?,
            MetComponent::Section(below) => show(text, below)?,
        }
    }
    text.push(b')')?;
    Ok(())
}

/// Walks the sections, and compares what is listed, and how it stands.
fn goes_down_first(rt: &(impl Abort + AllocGlobal), sections: &Sections) -> Result<(), Fail> {
    let read = ReadSections::read(rt.alloc(), sections)?;
    let walked = walk(rt.alloc(), &read)?;
    let mut text = Vec::new(rt.alloc());
    list(&mut text, &walked)?;
    text.push(b' ')?;
    show(&mut text, &walked.top)?;
    let expected = b"top a b line  a q@queue b c@cpu line top(a(@b(@))line())".as_slice();
    assert_eq!(rt; text.as_slice(), expected);
    Ok(())
}

#[test]
fn a_walk_goes_down_first(rt: HostRuntime) -> Result<(), Fail> {
    let sections = Lines::read(rt.alloc(), MODEL)
        .ok()
        .ok_or("a file that is read")?;
    goes_down_first(&rt, &sections)
}
