// Which leaves and ports the records of a run name.
ghost use Rattle.text_forms.specs.CycleNames.{CyclesNameLeaves};

/// The records of a cycle of a run name leaves and ports of the model.
pub fn cycles_name_leaves()
    ensures { CyclesNameLeaves }
{}
