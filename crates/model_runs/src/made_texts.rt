// The text of the made model of five rows and columns.
use model_text::made_text;
use std::test::Fail;

const OF_FIVE: &[u8] =
    b"[Top]\ncomponents : Life\n[Life]          % Conway\ntype : cell\nwidth : 5\nheight : 5\ndelay : transport\ndefaultDelayTime : 100\nborder : wrapped\nneighbors : life(-1,-1) life(-1,0) life(-1,1)\nneighbors : life(0,-1) life(0,0) life(0,1)\nneighbors : life(1,-1) life(1,0) life(1,1)\ninitialvalue : 0\ninitialrowvalue : 0 00000\ninitialrowvalue : 1 00000\ninitialrowvalue : 2 01110\ninitialrowvalue : 3 00000\ninitialrowvalue : 4 00000\nlocaltransition : life-rule\n[life-rule]\nrule : 1 100 { (0,0) = 1 and\n   (trueCount = 3 or trueCount = 4) }\nrule : 1 100 { (0,0) = 0 and trueCount = 3 }\nrule : 0 100 { t }\n";

#[test]
fn five_rows_and_columns(rt: HostRuntime) -> Result<(), Fail> {
    let mut text = Vec::new(rt.alloc());
    made_text(5, &mut text)?;
    assert_eq!(rt; text.as_slice(), OF_FIVE);
    Ok(())
}
