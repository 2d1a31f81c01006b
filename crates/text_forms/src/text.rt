// The texts of records.
ghost use Rattle.std.specs.Prelude.{◌≡◌, ◌∷◌, [], ◌++◌, length, take, OnOk, OnErr};
ghost use Rattle.run_model.specs.Run.{Cycle};
ghost use Rattle.model_tree.specs.Tree.{leaves, outs_of};
ghost use Rattle.model_leaves.specs.Leaves.{OfTree};
ghost use Rattle.text_forms.specs.Lines as forms;
ghost use Rattle.text_forms.specs.Held.{Holds};
ghost use Rattle.text_forms.specs.Chosen.{letters_of};
ghost use Rattle.text_forms.specs.Named.{NamesLeaves};
ghost use Rattle.text_forms.specs.RecordTexts.{all_if, texts_of_letter, log_text, out_texts};

use crate::Letter;
use crate::given::{put_given, put_reached};
use crate::moved::put_moved;
use crate::output::put_outputs;
use crate::records::{Letters, Records};
use model_leaves::Model;
use quantity::OutOfMemory;

/// Appends the lines of the chosen letters: Y, then N, X and S, each with the time of its record.
/// The records name leaves and ports of the model. Where memory is refused, `into` stays as it was.
pub fn log_bytes(
    records: &Records,
    letters: &Letters,
    model: &Model,
    into: &mut Vec<u8>,
) -> Result<(), OutOfMemory>
    requires { NamesLeaves model.now records.now }
    ensures lines { OnOk result (OfTree model.now (λ tree.
        into.new.items ≡ into.old.items ++ log_text (leaves tree) letters.now records.now)) }
    // For the cycle whose records these are.
    ensures ok { OnOk result ((c : Cycle) → Holds records.now c → OfTree model.now (λ tree.
        into.new.items ≡ into.old.items
        ++ forms.log_bytes tree (letters_of letters.now) (c ∷ []))) }
    ensures err { OnErr result (into.new.items ≡ into.old.items) }
{
    let before = into.len();
    let done = put_lines(records, letters, model, into);
    if done.is_err() {
        into.truncate(before);
    }
    done
}

/// Appends the lines of the chosen letters. A refusal may leave more behind what was there.
fn put_lines(
    records: &Records,
    letters: &Letters,
    model: &Model,
    into: &mut Vec<u8>,
) -> Result<(), OutOfMemory>
    requires { NamesLeaves model.now records.now }
    ensures ok { OnOk result (OfTree model.now (λ tree.
        into.new.items ≡ into.old.items ++ log_text (leaves tree) letters.now records.now)) }
    ensures kept { take (length into.old.items) into.new.items ≡ into.old.items }
{
    put_letter(Letter::Y, records, letters, model, into)?;
    put_letter(Letter::N, records, letters, model, into)?;
    put_letter(Letter::X, records, letters, model, into)?;
    put_letter(Letter::S, records, letters, model, into)
}

/// Appends the lines of this letter, where it is chosen. Those of Y, N, X and S, one behind the
/// other, are what `log_bytes` appends. Where memory is refused, `into` stays as it was.
pub fn letter_bytes(
    letter: Letter,
    records: &Records,
    letters: &Letters,
    model: &Model,
    into: &mut Vec<u8>,
) -> Result<(), OutOfMemory>
    requires { NamesLeaves model.now records.now }
    ensures lines { OnOk result (OfTree model.now (λ tree. into.new.items
        ≡ into.old.items ++ texts_of_letter (leaves tree) letters.now records.now letter)) }
    ensures err { OnErr result (into.new.items ≡ into.old.items) }
{
    let before = into.len();
    let done = put_letter(letter, records, letters, model, into);
    if done.is_err() {
        into.truncate(before);
    }
    done
}

/// The same. A refusal may leave more behind what was there.
fn put_letter(
    letter: Letter,
    records: &Records,
    letters: &Letters,
    model: &Model,
    into: &mut Vec<u8>,
) -> Result<(), OutOfMemory>
    requires { NamesLeaves model.now records.now }
    ensures ok { OnOk result (OfTree model.now (λ tree. into.new.items
        ≡ into.old.items ++ texts_of_letter (leaves tree) letters.now records.now letter)) }
    ensures kept { take (length into.old.items) into.new.items ≡ into.old.items }
{
    match letter {
        Letter::Y => put_given(chosen(letters.y, &records.y), Letter::Y, model, into),
        Letter::N => put_given(chosen(letters.n, &records.n), Letter::N, model, into),
        Letter::X => put_reached(chosen(letters.x, &records.x), model, into),
        Letter::S => put_moved(chosen(letters.s, &records.s), model, into),
    }
}

/// All records, or none.
fn chosen<T>(is_chosen: bool, records: &[T]) -> &[T]
    ensures { result.now ≡ all_if is_chosen records.now }
{
    if is_chosen { records } else { &[] }
}

/// Appends the lines of the outputs of top, each with the time of its record. Where memory is
/// refused, `into` stays as it was.
pub fn out_bytes(records: &Records, model: &Model, into: &mut Vec<u8>) -> Result<(), OutOfMemory>
    ensures lines { OnOk result (OfTree model.now (λ tree.
        into.new.items ≡ into.old.items ++ out_texts (outs_of tree) records.now.out.items)) }
    // For the cycle whose records these are.
    ensures ok { OnOk result ((c : Cycle) → Holds records.now c → OfTree model.now (λ tree.
        into.new.items ≡ into.old.items ++ forms.out_bytes tree (c ∷ []))) }
    ensures err { OnErr result (into.new.items ≡ into.old.items) }
{
    let before = into.len();
    let done = put_outputs_of(records, model, into);
    if done.is_err() {
        into.truncate(before);
    }
    done
}

/// Appends the lines of the outputs of top. A refusal may leave more behind what was there.
fn put_outputs_of(records: &Records, model: &Model, into: &mut Vec<u8>) -> Result<(), OutOfMemory>
    ensures ok { let names = model.now.top.outs.items in
        OnOk result (into.new.items ≡ into.old.items ++ out_texts names records.now.out.items) }
    ensures kept { take (length into.old.items) into.new.items ≡ into.old.items }
{
    let top = model.top();
    put_outputs(&records.out, &top.outs, into)
}
