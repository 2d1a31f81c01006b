// Room for records, made at once.
ghost use Rattle.std.specs.Prelude.{◌≡◌};

/// Makes room for so many more, where there is memory: a list that grows little by little leaves
/// blocks behind that lie idle. A refusal is no end here, as what needs the room asks again.
pub(crate) fn make_room<T>(list: &mut Vec<T>, more: usize)
    ensures { list.new.items ≡ list.old.items }
{
    let _made = list.reserve(more);
}
