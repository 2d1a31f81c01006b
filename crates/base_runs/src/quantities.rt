// Values, times and names: each call that can want memory, once with enough of it.
use crate::values::number;
use quantity::{MAX_TIME, Name, Text, Time};
use std::test::Fail;

/// Puts two values and the last time behind a text.
fn append(text: &mut Vec<u8>) -> Result<(), Fail> {
    number(-150_000).text5(text)?;
    number(-40_000).text(0, 3, text)?;
    let latest = Time::new(MAX_TIME).ok_or("a time")?;
    latest.text(text)?;
    Ok(())
}

#[test]
fn texts_are_appended(rt: HostRuntime) -> Result<(), Fail> {
    let mut text = Vec::new(rt.alloc());
    append(&mut text)?;
    assert_eq!(rt; text.as_slice(), b"-1.50000  0199:59:59:998".as_slice());
    Ok(())
}

#[test]
fn names_and_texts_are_copied(rt: HostRuntime) -> Result<(), Fail> {
    let name = Name::parse(rt.alloc(), b"life-rule")?.clone()?;
    let text = Text::copy(rt.alloc(), name.as_bytes())?.clone()?;
    assert_eq!(rt; text.as_bytes(), b"life-rule".as_slice());
    Ok(())
}
