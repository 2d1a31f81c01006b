// Words and parts of tuples: each call that can want memory, once with enough of it.
use source_text::tuples::parts;
use source_text::words::words;
use std::test::Fail;

/// The words of the first text.
const WORDS: [&[u8]; 3] = [b"0:0:0:1", b"p", b"2"];

/// The parts of the second.
const PARTS: [&[u8]; 2] = [b"(0,1", b"(0,2"];

#[test]
fn words_and_parts_are_listed(rt: HostRuntime) -> Result<(), Fail> {
    let found = words(rt.alloc(), b" 0:0:0:1\tp   2 ")?;
    let listed = parts(rt.alloc(), b"(0,1)(0,2) ")?.ok_or("parts")?;
    assert_eq!(rt;
        (found.as_slice(), listed.as_slice()),
        (WORDS.as_slice(), PARTS.as_slice())
    );
    Ok(())
}
