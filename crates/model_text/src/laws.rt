// What the definitions give for texts of models, read or refused: each call states worked values.
#![tactic(auto, unfolding(crate::specs::Opened::sections_of, crate::specs::Opened::tokens, crate::specs::Opened::written_rule, crate::specs::Opened::rule_of_text, crate::specs::ModelOf::model_of, crate::specs::LifeModel::made_text, crate::specs::Opened::digits))]

ghost use Rattle.model_text.specs.Examples.{LineIsRead, TableIsRead, QueueIsRead, LifeIsRead, GroupsAreRead};
ghost use Rattle.model_text.specs.RefusalExamples.{KindsHaveTexts, LineIsRefused, CellIsRefused};
ghost use Rattle.model_text.specs.RefusalExamples.{DepthIsBounded, ComponentsAreRefused};
ghost use Rattle.model_text.specs.RefusalExamples.{TablesAreRefused, GroupsAreRefused};
ghost use Rattle.model_text.specs.RefusalExamples.{SectionsAreRefused, CutFilesAreRefused};
ghost use Rattle.model_text.specs.RefusalExamples.{LimitsAreKept};
ghost use Rattle.model_text.specs.FileExamples.{FilesAreLaidOn, FilesAreRefused};
ghost use Rattle.model_text.specs.LinkExamples.{EndsAreCut};

/// The line of three cells is read, in letters of either case.
pub fn line_is_read()
    ensures { LineIsRead }
{}

/// State tables and a queue are read.
pub fn table_is_read()
    ensures { TableIsRead }
{}

/// The queue and its generators are read, and sound.
pub fn queue_is_read()
    ensures { QueueIsRead }
{}

/// Life is read.
pub fn life_is_read()
    ensures { LifeIsRead }
{}

/// Groups with zones, ports and links are read.
pub fn groups_are_read()
    ensures { GroupsAreRead }
{}

/// A kind's text is its number and its name.
pub fn kinds_have_texts()
    ensures { KindsHaveTexts }
{}

/// Changes of the line are refused.
pub fn line_is_refused()
    ensures { LineIsRefused }
{}

/// Changes of one cell are refused.
pub fn cell_is_refused()
    ensures { CellIsRefused }
{}

/// A tuple in a link is one piece with the text beside it, and other parentheses are bytes like
/// others.
pub fn ends_are_cut()
    ensures { EndsAreCut }
{}

/// Sections lie at most 16 below the top.
pub fn depth_is_bounded()
    ensures { DepthIsBounded }
{}

/// Components, their parameters and links are refused.
pub fn components_are_refused()
    ensures { ComponentsAreRefused }
{}

/// Tables are refused.
pub fn tables_are_refused()
    ensures { TablesAreRefused }
{}

/// Groups are refused, and the first phase counts.
pub fn groups_are_refused()
    ensures { GroupsAreRefused }
{}

/// Initial files are looked for in their order and laid on.
pub fn files_are_laid_on()
    ensures { FilesAreLaidOn }
{}

/// Initial files and drawings are refused.
pub fn files_are_refused()
    ensures { FilesAreRefused }
{}

/// Keys and ports that stand again are refused, and sections that nothing reaches are not.
pub fn sections_are_refused()
    ensures { SectionsAreRefused }
{}

/// A file that is cut off is refused where its first lines are.
pub fn cut_files_are_refused()
    ensures { CutFilesAreRefused }
{}

/// The last that a limit accepts, and the first that it refuses.
pub fn limits_are_kept()
    ensures { LimitsAreKept }
{}
