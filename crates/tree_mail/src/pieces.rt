// Pieces of a list, one behind another.
ghost use Rattle.std.specs.Prelude.{◌≡◌, ◌<◌, ◌+◌, ◌++◌, ◌∷◌, [], Some, length, slice_get, OnOk, OnErr, IsTrue};
ghost use Rattle.std.specs.List.{remove};
ghost use Rattle.tree_mail.specs.Joined.{items_of_pieces, IsPlaceOf};

use crate::place::Place;
use quantity::OutOfMemory;
use std::alloc::{AllocError, Global};

/// How many items a piece has room for.
const PIECE: usize = 512;

/// Puts an item behind all others.
pub(crate) fn put<T: Drop>(
    alloc: Global,
    pieces: &mut Vec<Vec<T>>,
    item: T,
) -> Result<(), OutOfMemory>
    ensures ok { OnOk result
        (items_of_pieces pieces.new.items ≡ items_of_pieces pieces.old.items ++ item ∷ []) }
    ensures err { OnErr result
        (items_of_pieces pieces.new.items ≡ items_of_pieces pieces.old.items) }
{
    make_room(alloc, pieces)?;
    put_last(pieces, item)
}

/// The last piece has room: it has been there, or it is a new one.
fn make_room<T: Drop>(alloc: Global, pieces: &mut Vec<Vec<T>>) -> Result<(), OutOfMemory>
    ensures same { items_of_pieces pieces.new.items ≡ items_of_pieces pieces.old.items }
    ensures some { OnOk result (0 < length pieces.new.items) }
{
    if has_room(pieces) {
        return Ok(());
    }
    let piece = Vec::with_capacity(alloc, PIECE)?;
    pieces.push(piece).map_err(AllocError::from)?;
    Ok(())
}

/// Whether there is a last piece, and has room.
fn has_room<T: Drop>(pieces: &[Vec<T>]) -> bool
    ensures { IsTrue result → 0 < length pieces.now }
{
    if pieces.is_empty() {
        return false;
    }
    pieces[pieces.len() - 1].len() < PIECE
}

/// Puts an item behind those of the last piece.
fn put_last<T: Drop>(pieces: &mut Vec<Vec<T>>, item: T) -> Result<(), OutOfMemory>
    requires { 0 < length pieces.old.items }
    ensures ok { OnOk result
        (items_of_pieces pieces.new.items ≡ items_of_pieces pieces.old.items ++ item ∷ []) }
    ensures err { OnErr result
        (items_of_pieces pieces.new.items ≡ items_of_pieces pieces.old.items) }
{
    let last = pieces.len() - 1;
    let Ok(()) = pieces[last].push(item) else {
        return Err(OutOfMemory);
    };
    Ok(())
}

/// The place of the item of this number.
pub(crate) fn place_of<T: Drop>(pieces: &[Vec<T>], number: usize) -> Place
    requires { number < length (items_of_pieces pieces.now) }
    ensures { IsPlaceOf pieces.now number result }
{
    let mut within = number;
    for (i, piece) in pieces.iter().enumerate() {
        if within < piece.len() {
            return Place { piece: i, within };
        }
        within -= piece.len();
    }
    unreachable!()
}

/// Takes the item at a place out, and its piece, if that was its last.
pub(crate) fn take<T: Drop>(pieces: &mut Vec<Vec<T>>, number: usize) -> T
    requires { number < length (items_of_pieces pieces.old.items) }
    ensures value { slice_get (items_of_pieces pieces.old.items) number ≡ Some result }
    ensures left { items_of_pieces pieces.new.items
        ≡ remove (items_of_pieces pieces.old.items) number }
{
    let at = place_of(pieces, number);
    let item = pieces[at.piece].remove(at.within);
    drop_empty(pieces, at.piece);
    item
}

/// Drops a piece that has no item.
fn drop_empty<T: Drop>(pieces: &mut Vec<Vec<T>>, piece: usize)
    requires { piece < length pieces.old.items }
    ensures { items_of_pieces pieces.new.items ≡ items_of_pieces pieces.old.items }
{
    if pieces[piece].is_empty() {
        let _empty = pieces.remove(piece);
    }
}
