// The made model.
ghost use Rattle.std.specs.Prelude.{◌≡◌, ◌≤◌, ◌++◌, OnOk, OnErr, length, take};
ghost use Rattle.model_text.specs.LifeModel.{made_text};

use crate::life_lines::{put_lines, put_numbered};
use crate::life_rows::put_rows;
use quantity::OutOfMemory;

/// The lines before the sizes of the space.
const BEFORE_SIZES: [&[u8]; 4] = [
    b"[Top]",
    b"components : Life",
    b"[Life]          % Conway",
    b"type : cell",
];

/// The lines between the sizes and the rows.
const BEFORE_ROWS: [&[u8]; 7] = [
    b"delay : transport",
    b"defaultDelayTime : 100",
    b"border : wrapped",
    b"neighbors : life(-1,-1) life(-1,0) life(-1,1)",
    b"neighbors : life(0,-1) life(0,0) life(0,1)",
    b"neighbors : life(1,-1) life(1,0) life(1,1)",
    b"initialvalue : 0",
];

/// The lines behind the rows.
const BEHIND_ROWS: [&[u8]; 6] = [
    b"localtransition : life-rule",
    b"[life-rule]",
    b"rule : 1 100 { (0,0) = 1 and",
    b"   (trueCount = 3 or trueCount = 4) }",
    b"rule : 1 100 { (0,0) = 0 and trueCount = 3 }",
    b"rule : 0 100 { t }",
];

/// Appends the text of Life with so many rows and columns. A refusal leaves `into` as it was.
pub fn made_text(n: u32, into: &mut Vec<u8>) -> Result<(), OutOfMemory>
    requires least { 5 ≤ n }
    requires most { n ≤ 1000 }
    ensures ok { OnOk result (into.new.items ≡ into.old.items ++ made_text n) }
    ensures err { OnErr result (into.new.items ≡ into.old.items) }
{
    let before = into.len();
    if let Err(error) = put_model(n, into) {
        into.truncate(before);
        return Err(error);
    }
    Ok(())
}

/// The same, where a refusal may leave more behind what was there.
fn put_model(n: u32, into: &mut Vec<u8>) -> Result<(), OutOfMemory>
    ensures ok { OnOk result (into.new.items ≡ into.old.items ++ made_text n) }
    ensures kept { take (length into.old.items) into.new.items ≡ into.old.items }
{
    put_lines(&BEFORE_SIZES, into)?;
    put_numbered(b"width : ", n, into)?;
    put_numbered(b"height : ", n, into)?;
    put_lines(&BEFORE_ROWS, into)?;
    put_rows(n, into)?;
    put_lines(&BEHIND_ROWS, into)?;
    Ok(())
}
