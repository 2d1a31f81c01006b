// What holds of sections, entries and lines, in general and in examples.
ghost use Rattle.ma_lines.specs.Laws.{StandsOnLines, StandsOnTexts, DropsReturns, DropsComments, DropsOuterBlanks, FoldsLetters, SkipsEmptyLines, ReadsPlainTexts, NumbersRise};
ghost use Rattle.ma_lines.specs.Examples.{SectionsAreRead, LinesAreRefused};

/// Sections and entries are read as these examples say.
pub fn sections_are_read()
    ensures { SectionsAreRead }
{}

/// The first line that is refused counts.
pub fn lines_are_refused()
    ensures { LinesAreRefused }
{}

/// Files with the same lines have the same sections.
pub fn sections_stand_on_lines()
    ensures { StandsOnLines }
{}

/// A carriage return at the end of a line is dropped.
pub fn returns_are_dropped()
    ensures { DropsReturns }
{}

/// What stands behind the first `%` of a line is dropped.
pub fn comments_are_dropped()
    ensures { DropsComments }
{}

/// A line that is empty, or has only a comment, changes nothing but the numbers of the lines behind
/// it.
pub fn empty_lines_are_skipped()
    ensures { SkipsEmptyLines }
{}

/// In lower-case letters a file has the same sections, but for the letters of the values that keep
/// theirs.
pub fn letters_are_folded()
    ensures { FoldsLetters }
{}

/// A line may be replaced by one with the same text.
pub fn sections_stand_on_texts()
    ensures { StandsOnTexts }
{}

/// Blanks at the ends of a line are dropped.
pub fn outer_blanks_are_dropped()
    ensures { DropsOuterBlanks }
{}

/// Names, keys and values have only tabs and bytes from 32 to 126.
pub fn texts_are_plain()
    ensures { ReadsPlainTexts }
{}

/// The numbers of the lines of sections and entries rise.
pub fn numbers_rise()
    ensures { NumbersRise }
{}
