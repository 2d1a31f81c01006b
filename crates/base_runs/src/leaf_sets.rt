// Each set of leaves once.
ghost use Rattle.std.specs.Prelude.{◌≡◌, length};

use leaf_set::{BitSet, FlagSet, LeafSet};
use std::alloc::Global;
use std::process::Abort;
use std::test::Fail;

fn members_rise<S: LeafSet>(rt: &impl Abort, alloc: Global, set: &mut S) -> Result<(), Fail>
    requires { length (S.members set.old) ≡ 70 }
{
    set.insert(69);
    set.insert(3);
    set.insert(64);
    set.remove(64);
    set.insert(2);
    assert_eq!(rt; (set.has(3), set.has(64)), (true, false));
    let mut taken = Vec::with_capacity(alloc, 70)?;
    set.take_all(&mut taken);
    assert_eq!(rt;
        (taken.as_slice(), set.has(69)),
        ([2, 3, 69].as_slice(), false)
    );
    Ok(())
}

fn far_members_rise<S: LeafSet>(rt: &impl Abort, alloc: Global, set: &mut S) -> Result<(), Fail>
    requires { length (S.members set.old) ≡ 5000 }
{
    set.insert(4999);
    set.insert(4096);
    set.insert(4095);
    let mut taken = Vec::with_capacity(alloc, 5000)?;
    set.take_all(&mut taken);
    assert_eq!(rt; taken.as_slice(), [4095, 4096, 4999].as_slice());
    taken.clear();
    set.insert(4999);
    set.take_all(&mut taken);
    assert_eq!(rt; taken.as_slice(), [4999].as_slice());
    Ok(())
}

#[test]
fn flags_are_taken(rt: HostRuntime) -> Result<(), Fail> {
    let mut set = FlagSet::with_leaves(rt.alloc(), 70)?;
    members_rise(&rt, rt.alloc(), &mut set)
}

#[test]
fn bits_are_taken(rt: HostRuntime) -> Result<(), Fail> {
    let mut set = BitSet::with_leaves(rt.alloc(), 70)?;
    members_rise(&rt, rt.alloc(), &mut set)
}

#[test]
fn far_bits_are_taken(rt: HostRuntime) -> Result<(), Fail> {
    let mut set = BitSet::with_leaves(rt.alloc(), 5000)?;
    far_members_rise(&rt, rt.alloc(), &mut set)
}
