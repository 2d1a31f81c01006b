// The lines of leaves that moved. A refusal may leave more behind what was there.
ghost use Rattle.std.specs.Prelude.{◌≡◌, ◌≤◌, ◌++◌, length, take, OnOk};
ghost use Rattle.std.specs.List.{All};
ghost use Rattle.model_tree.specs.Tree.{Leaf, leaves};
ghost use Rattle.model_leaves.specs.Leaves.{Appends, IsLeafOf, OfTree};
ghost use Rattle.text_forms.specs.declared.letter.Letter.TheVariants.{S};
ghost use Rattle.text_forms.specs.LogLine.{state_text};
ghost use Rattle.text_forms.specs.declared.records.SRecord as s;
ghost use Rattle.text_forms.specs.Begun.{IsStart, head_text};
ghost use Rattle.text_forms.specs.RecordTexts.{s_text, s_texts};

use crate::Letter;
use crate::pieces::one_digit;
use crate::records::SRecord;
use crate::start::Start;
use crate::tail::Tail;
use model_leaves::Model;
use quantity::{OutOfMemory, put};

/// Appends the lines of leaves that moved.
pub(crate) fn put_moved(
    records: &[SRecord],
    model: &Model,
    into: &mut Vec<u8>,
) -> Result<(), OutOfMemory>
    requires { All (λ (r : s.SRecord). IsLeafOf model.now r.leaf) records.now }
    ensures ok { OnOk result (OfTree model.now (λ tree.
        into.new.items ≡ into.old.items ++ s_texts (leaves tree) records.now)) }
    ensures kept { take (length into.old.items) into.new.items ≡ into.old.items }
{
    let mut start = Start::new(Letter::S);
    for moved in records {
        put_moved_line(moved, &mut start, model, into)?;
    }
    Ok(())
}

fn put_moved_line(
    moved: &SRecord,
    start: &mut Start,
    model: &Model,
    into: &mut Vec<u8>,
) -> Result<(), OutOfMemory>
    requires there { IsLeafOf model.now moved.now.leaf }
    requires right { IsStart model.now start.old }
    requires letter { start.old.letter ≡ S }
    ensures right { IsStart model.now start.new }
    ensures letter { start.new.letter ≡ S }
    ensures ok { OnOk result
        (Appends model.now moved.now.leaf (s_text moved.now) into.old.items into.new.items) }
    ensures kept { take (length into.old.items) into.new.items ≡ into.old.items }
{
    match moved.next.get() {
        None => put_state(moved, b" / ...\n", start, model, into),
        Some(next) => {
            put_state(moved, b" / ", start, model, into)?;
            next.text(into)?;
            put(b"\n", into)
        }
    }
}

/// Appends a line up to its state, which is the computed value of a cell, or `-`, and what stands
/// behind it.
#[inline(always)]
fn put_state(
    moved: &SRecord,
    behind: &[u8],
    start: &mut Start,
    model: &Model,
    into: &mut Vec<u8>,
) -> Result<(), OutOfMemory>
    requires short { length behind.now ≤ 8 }
    requires there { IsLeafOf model.now moved.now.leaf }
    requires right { IsStart model.now start.old }
    ensures right { IsStart model.now start.new }
    ensures letter { start.new.letter ≡ start.old.letter }
    ensures ok { let text = λ (l : Leaf). head_text start.old.letter moved.now.time l
        ++ (state_text moved.now.value ++ behind.now) in
        OnOk result (Appends model.now moved.now.leaf text into.old.items into.new.items) }
    ensures kept { take (length into.old.items) into.new.items ≡ into.old.items }
{
    let Some(value) = moved.value.get() else {
        let tail = Tail::of(b"-", behind);
        return start.put_head(moved.time, moved.leaf, &tail, model, into);
    };
    match one_digit(&value) {
        Some(digit) => {
            let state = [b'0' + digit, b'.', b'0', b'0', b'0', b'0', b'0'];
            let tail = Tail::of(&state, behind);
            start.put_head(moved.time, moved.leaf, &tail, model, into)
        }
        None => {
            start.put_head(moved.time, moved.leaf, &Tail::none(), model, into)?;
            value.text5(into)?;
            put(behind, into)
        }
    }
}
