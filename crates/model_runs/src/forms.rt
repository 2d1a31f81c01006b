// Forms of values: each call that can want memory, once with enough of it.
use model_walk::link::link_text;
use model_walk::tuples::tuples_of;
use std::alloc::Global;
use std::process::Abort;
use std::test::Fail;

/// Texts, and how many tuples stand behind the group `life`.
const TUPLES: [(&[u8], Option<usize>); 5] = [
    (b"life(0, -1)( 1,0 ) life(1,1)", Some(3)),
    (b"", Some(0)),
    (b"lime(0,1)", None),
    (b"life (0,1)", None),
    (b"(0,1) x", None),
];

/// How many tuples there are.
fn count_of(alloc: Global, text: &[u8]) -> Result<Option<usize>, Fail> {
    Ok(match tuples_of(alloc, b"life", text)? {
        Some(tuples) => Some(tuples.len()),
        None => None,
    })
}

#[test]
fn tuples_stand_behind_the_group(rt: HostRuntime) -> Result<(), Fail> {
    for (text, count) in &TUPLES {
        assert_eq!(rt; count_of(rt.alloc(), text)?, *count);
    }
    Ok(())
}

/// Texts of links, and these with whole tuples.
const LINKS: [(&[u8], &[u8]); 4] = [
    (b"out@g( 0, 1 ) in", b"out@g(0,1) in"),
    (b"out@g(0 0) o", b"out@g(0 0) o"),
    (b"out@g(0,0 o", b"out@g(0,0 o"),
    (b"a b c", b"a b c"),
];

/// Compares the whole text of a link.
fn is_whole(rt: &(impl Abort + AllocGlobal), text: &[u8], whole: &[u8]) -> Result<(), Fail> {
    let found = link_text(rt.alloc(), text)?;
    assert_eq!(rt; found.as_slice(), whole);
    Ok(())
}

#[test]
fn tuples_of_links_are_whole(rt: HostRuntime) -> Result<(), Fail> {
    for (text, whole) in &LINKS {
        is_whole(&rt, text, whole)?;
    }
    Ok(())
}
