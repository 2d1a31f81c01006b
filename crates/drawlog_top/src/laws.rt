// Computed examples of lines, written and read.
ghost use Rattle.drawlog_top.specs.LineExamples.{LinesAsSaid};

/// Lines of a cell of three dimensions, written and read back.
pub fn lines_of_three_coordinates()
    ensures { LinesAsSaid }
{}
