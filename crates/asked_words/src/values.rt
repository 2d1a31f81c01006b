// The values of options.
ghost use Rattle.std.specs.Prelude.{◌≡◌, ◌≤◌, ◌++◌, ◌∷◌, [], IfOk, IfSome, map};
ghost use Rattle.std.specs.Option.{option_map};
ghost use Rattle.quantity.specs.Bytes.{has_number};
ghost use Rattle.rule_tree.specs.Scope.{differ};
ghost use Rattle.text_forms.specs.Chosen.{letters_of};
ghost use Rattle.answer_model.specs.Options.{are_letters, letters_in, number_within, seed_in};
ghost use Rattle.answer_model.specs.Asked.{lower, group_in};
ghost use Rattle.text_forms.specs.Letters.{letter_bytes};

use quantity::digits::whole_number;
use quantity::{Name, NameRefusal, OutOfMemory};
use std::alloc::{AllocError, Global};
use text_forms::{Letter, Letters};

/// The number of up to seven digits, where it lies in these bounds.
pub fn number(low: u32, high: u32, text: &str) -> Option<u32>
    requires { high ≤ 9999999 }
    ensures value { result ≡ number_within low high text.now }
    ensures least { IfSome result (λ n. low ≤ n) }
    ensures most { IfSome result (λ n. n ≤ high) }
{
    let n = whole_number(7, text.as_bytes())? as u32;
    if low <= n && n <= high { Some(n) } else { None }
}

/// The seed of an order of service.
pub(crate) fn seed_in(text: &str) -> Option<u32>
    ensures { result ≡ seed_in text.now }
{
    let seed = whole_number(10, text.as_bytes())?;
    if seed <= 2_147_483_647 {
        Some(seed as u32)
    } else {
        None
    }
}

fn is_letter(c: u8) -> bool
    ensures { result ≡ has_number letter_bytes c }
{
    Letter::ALL.iter().any(|letter| letter.byte() == c)
}

fn is_among(c: u8, cs: &[u8]) -> bool
    ensures { result ≡ has_number cs.now c }
{
    cs.iter().any(|d| *d == c)
}

fn all_differ(cs: &[u8]) -> bool
    ensures { result ≡ differ cs.now }
{
    match cs {
        [] => true,
        [c, rest @ ..] => !is_among(*c, rest) & all_differ(rest),
    }
}

fn are_letters(cs: &[u8]) -> bool
    ensures { result ≡ are_letters cs.now }
{
    cs.iter().all(|c| is_letter(*c))
}

/// Different letters of the log's lines, at least one.
pub(crate) fn letters_in(text: &str) -> Option<Letters>
    ensures { option_map letters_of result ≡ letters_in text.now }
{
    let letters = text.as_bytes();
    if are_letters(letters) & all_differ(letters) & !letters.is_empty() {
        Some(Letters::among(letters))
    } else {
        None
    }
}

fn push_lower(lowered: &mut Vec<u8>, c: u8) -> Result<(), AllocError>
    ensures { IfOk result (λ u. lowered.new.items ≡ lowered.old.items ++ lower c ∷ []) }
{
    lowered
        .push(c.to_ascii_lowercase())
        .map_err(AllocError::from)
}

fn lowered(alloc: Global, text: &[u8]) -> Result<Vec<u8>, AllocError>
    ensures { IfOk result (λ low. low.items ≡ map lower text.now) }
{
    let mut low = Vec::new(alloc);
    for c in text {
        push_lower(&mut low, *c)?;
    }
    Ok(low)
}

/// The name of a group, with letters of any case.
pub fn group_in(alloc: Global, text: &str) -> Result<Option<Name>, OutOfMemory>
    ensures { IfOk result (λ name. name ≡ group_in text.now) }
{
    let low = lowered(alloc, text.as_bytes())?;
    match Name::parse(alloc, &low) {
        Ok(name) => Ok(Some(name)),
        Err(NameRefusal::Bad) => Ok(None),
        Err(NameRefusal::Memory) => Err(OutOfMemory),
    }
}
