// The lines of values that leaves gave and that reached leaves. A refusal may leave more behind
// what was there.
ghost use Rattle.std.specs.Prelude.{◌≡◌, ◌++◌, codes, length, take, OnOk};
ghost use Rattle.std.specs.List.{All};
ghost use Rattle.model_tree.specs.Tree.{leaves};
ghost use Rattle.model_leaves.specs.LeafTexts.{in_ports, name_at, out_ports};
ghost use Rattle.model_leaves.specs.Leaves.{Appends, IsLeafOf, OfTree};
ghost use Rattle.text_forms.specs.declared.letter.Letter.TheVariants.{X};
ghost use Rattle.text_forms.specs.declared.records.YRecord as y;
ghost use Rattle.text_forms.specs.declared.records.XRecord as x;
ghost use Rattle.text_forms.specs.Begun.{IsStart};
ghost use Rattle.text_forms.specs.Named.{HasPort};
ghost use Rattle.text_forms.specs.RecordTexts.{x_text, x_texts, y_text, y_texts};

use crate::Letter;
use crate::pieces::{one_digit, put_long_value, put_value};
use crate::records::{XRecord, YRecord};
use crate::start::Start;
use crate::tail::Tail;
use atomic_face::PortNo;
use model_leaves::Model;
use quantity::{OutOfMemory, put};

/// Appends the lines of values that were given.
pub(crate) fn put_given(
    records: &[YRecord],
    letter: Letter,
    model: &Model,
    into: &mut Vec<u8>,
) -> Result<(), OutOfMemory>
    requires { All (λ (r : y.YRecord). HasPort model.now out_ports r.leaf r.port.0) records.now }
    ensures ok { OnOk result (OfTree model.now (λ tree.
        into.new.items ≡ into.old.items ++ y_texts letter (leaves tree) records.now)) }
    ensures kept { take (length into.old.items) into.new.items ≡ into.old.items }
{
    let mut start = Start::new(letter);
    for given in records {
        put_given_line(given, &mut start, model, into)?;
    }
    Ok(())
}

fn put_given_line(
    given: &YRecord,
    start: &mut Start,
    model: &Model,
    into: &mut Vec<u8>,
) -> Result<(), OutOfMemory>
    requires there { HasPort model.now out_ports given.now.leaf given.now.port.0 }
    requires right { IsStart model.now start.old }
    ensures right { IsStart model.now start.new }
    ensures letter { start.new.letter ≡ start.old.letter }
    ensures ok { let text = y_text start.old.letter given.now in
        OnOk result (Appends model.now given.now.leaf text into.old.items into.new.items) }
    ensures kept { take (length into.old.items) into.new.items ≡ into.old.items }
{
    if given.port.0 == 0 {
        return put_out_line(given, start, model, into);
    }
    start.put_head(given.time, given.leaf, &Tail::none(), model, into)?;
    put_out_port(given.leaf, given.port, model, into)?;
    put_value(given.value.get(), into)
}

/// Appends the line of a value that was given at the port `out`.
#[inline(always)]
fn put_out_line(
    given: &YRecord,
    start: &mut Start,
    model: &Model,
    into: &mut Vec<u8>,
) -> Result<(), OutOfMemory>
    requires out { given.now.port.0 ≡ 0 }
    requires there { IsLeafOf model.now given.now.leaf }
    requires right { IsStart model.now start.old }
    ensures right { IsStart model.now start.new }
    ensures letter { start.new.letter ≡ start.old.letter }
    ensures ok { let text = y_text start.old.letter given.now in
        OnOk result (Appends model.now given.now.leaf text into.old.items into.new.items) }
    ensures kept { take (length into.old.items) into.new.items ≡ into.old.items }
{
    let given_value = given.value.get();
    match one_digit(&given_value) {
        Some(digit) => {
            let value = [b'0' + digit, b'.', b'0', b'0', b'0', b'0', b'0', b'\n'];
            let tail = Tail::of(b"out / ", &value);
            start.put_head(given.time, given.leaf, &tail, model, into)
        }
        None => {
            let tail = Tail::of(b"out / ", b"");
            start.put_head(given.time, given.leaf, &tail, model, into)?;
            put_long_value(given_value, into)
        }
    }
}

/// Appends the name of a leaf's output port, and a stroke.
fn put_out_port(
    leaf: u32,
    port: PortNo,
    model: &Model,
    into: &mut Vec<u8>,
) -> Result<(), OutOfMemory>
    requires { HasPort model.now out_ports leaf port.0 }
    ensures ok { OnOk result (Appends model.now leaf
        (λ l. name_at (out_ports l) port.0 ++ codes " / ")
        into.old.items into.new.items) }
    ensures kept { take (length into.old.items) into.new.items ≡ into.old.items }
{
    model.out_port_text(leaf, port, into)?;
    put(b" / ", into)
}

/// Appends the lines of values that reached leaves.
pub(crate) fn put_reached(
    records: &[XRecord],
    model: &Model,
    into: &mut Vec<u8>,
) -> Result<(), OutOfMemory>
    requires { All (λ (r : x.XRecord). HasPort model.now in_ports r.leaf r.port.0) records.now }
    ensures ok { OnOk result (OfTree model.now (λ tree.
        into.new.items ≡ into.old.items ++ x_texts (leaves tree) records.now)) }
    ensures kept { take (length into.old.items) into.new.items ≡ into.old.items }
{
    let mut start = Start::new(Letter::X);
    for reached in records {
        put_reached_line(reached, &mut start, model, into)?;
    }
    Ok(())
}

fn put_reached_line(
    reached: &XRecord,
    start: &mut Start,
    model: &Model,
    into: &mut Vec<u8>,
) -> Result<(), OutOfMemory>
    requires there { HasPort model.now in_ports reached.now.leaf reached.now.port.0 }
    requires right { IsStart model.now start.old }
    requires letter { start.old.letter ≡ X }
    ensures right { IsStart model.now start.new }
    ensures letter { start.new.letter ≡ X }
    ensures ok { OnOk result
        (Appends model.now reached.now.leaf (x_text reached.now) into.old.items into.new.items) }
    ensures kept { take (length into.old.items) into.new.items ≡ into.old.items }
{
    start.put_head(reached.time, reached.leaf, &Tail::none(), model, into)?;
    put_in_port(reached.leaf, reached.port, model, into)?;
    put_value(reached.value.get(), into)
}

/// Appends the name of a leaf's input port, and a stroke.
fn put_in_port(
    leaf: u32,
    port: PortNo,
    model: &Model,
    into: &mut Vec<u8>,
) -> Result<(), OutOfMemory>
    requires { HasPort model.now in_ports leaf port.0 }
    ensures ok { OnOk result (Appends model.now leaf
        (λ l. name_at (in_ports l) port.0 ++ codes " / ")
        into.old.items into.new.items) }
    ensures kept { take (length into.old.items) into.new.items ≡ into.old.items }
{
    model.port_text(leaf, port, into)?;
    put(b" / ", into)
}
