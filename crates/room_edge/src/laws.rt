//! Laws of rooms: pieces add up, and over a room that never fails no fault is answered.
ghost use Rattle.std.specs.Prelude.{◌≡◌, ℕ, List, ◌++◌, Option, Contains, IsErrOf, IfSome};
ghost use Rattle.room_edge.specs.Outside.{Files, puts, streams};
ghost use Rattle.room_edge.specs.Only.{adds};
ghost use Rattle.room_edge.specs.Faults.{Rose};
ghost use Rattle.room_edge.specs.Sure.{sure_outside};
ghost use Rattle.room_edge.specs.Whole.{IsReadOf};
ghost use Rattle.room_edge.specs.declared.sure.SureRoom.{SureRoom};

use crate::{ReadWhole, SureRoom, WriteAll, complain_all, read_whole, show_all, write_all};
use std::alloc::Global;

/// Two pieces, one after another, are one piece; a made file has just what was added to it.
pub fn pieces_add_up()
    ensures files { (made : Option Files) (name a b : List ℕ)
        → adds (adds made name a) name b ≡ adds made name (a ++ b) }
    ensures made { (made : Option Files) (name a b : List ℕ)
        → adds (puts made name a) name b ≡ puts made name (a ++ b) }
    ensures streams { (old : Option (List ℕ)) (a b : List ℕ)
        → streams (streams old a) b ≡ streams old (a ++ b) }
{}

/// No count of faults of a room that never fails rises.
pub fn sure_rooms_count_no_fault()
    ensures reads { (old new : SureRoom)
        → ¬ Rose (sure_outside old).read_faults (sure_outside new).read_faults }
    ensures writes { (old new : SureRoom)
        → ¬ Rose (sure_outside old).write_faults (sure_outside new).write_faults }
    ensures complaints { (old new : SureRoom)
        → ¬ Rose (sure_outside old).complain_faults (sure_outside new).complain_faults }
{}

/// Over such a room the answer of a read is the file's, or memory ran out.
pub fn sure_read(
    alloc: Global,
    room: &mut SureRoom,
    name: &str,
    limit: u32,
) -> Result<Vec<u8>, ReadWhole>
    ensures bytes { IfSome (sure_outside room.old).files
        (λ files. IsReadOf files name.now limit result) }
    ensures fault { ¬ IsErrOf result ReadWhole.ReadFault }
{
    read_whole(alloc, room, name, limit)
}

/// Over such a room a file takes all bytes, or memory ran out.
pub fn sure_write(room: &mut SureRoom, name: &str, bytes: &[u8]) -> Result<(), WriteAll>
    requires { Contains (sure_outside room.old).created name.now }
    ensures { (n : ℕ) → ¬ IsErrOf result (WriteAll.WriteFault n) }
{
    write_all(room, name, bytes)
}

/// Over such a room standard output takes all bytes, or memory ran out.
pub fn sure_show(room: &mut SureRoom, bytes: &[u8]) -> Result<(), WriteAll>
    ensures { (n : ℕ) → ¬ IsErrOf result (WriteAll.WriteFault n) }
{
    show_all(room, bytes)
}

/// Over such a room standard error takes all bytes, or memory ran out.
pub fn sure_complain(room: &mut SureRoom, bytes: &[u8]) -> Result<(), WriteAll>
    ensures { (n : ℕ) → ¬ IsErrOf result (WriteAll.WriteFault n) }
{
    complain_all(room, bytes)
}
