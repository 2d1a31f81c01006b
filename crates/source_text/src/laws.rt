// Texts that are read by the definitions, and such as aren't.
ghost use Rattle.source_text.specs.Examples.{LinesAsSaid, TuplesAsSaid, WordsAsSaid};

/// Lines without comments and outer blanks.
pub fn line_examples()
    ensures { LinesAsSaid }
{}

/// Words between blanks, and parts between separators.
pub fn word_examples()
    ensures { WordsAsSaid }
{}

/// Tuples alone, behind names and one behind another, and texts that are none.
pub fn tuple_examples()
    ensures { TuplesAsSaid }
{}
