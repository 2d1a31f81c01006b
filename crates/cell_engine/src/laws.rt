// Laws of the definitions.
ghost use Rattle.cell_engine.specs.Laws.{SeesItsGroup};

/// What a cell sees of its own group is what it sees of all leaves.
pub fn a_cell_sees_its_group()
    ensures { SeesItsGroup }
{}
