// What holds of neighbours that stand equally far on.
ghost use Rattle.cell_reach.specs.NeighbourhoodLaws.{NeighboursInsideAreEquallyFar};
ghost use Rattle.cell_reach.specs.NeighbourhoodLaws.{RisingWatchersAreWatchers};

/// An offset that leads past no edge always leads equally far on, and lists of watchers have the
/// members of the rising one.
pub fn neighbourhoods()
    ensures inside { NeighboursInsideAreEquallyFar }
    ensures watchers { RisingWatchersAreWatchers }
{}
