// Laws of the definitions, and values worked out by them.
ghost use Rattle.quantity.specs.Examples.{ComparisonsAsSaid, FunctionsAsSaid, LiteralsAsSaid, NamesAsSaid, PairsArePut, ProductsAsSaid, SumsAsSaid, TextsAsSaid, TimesAsSaid, WholeNumbersAsSaid};
ghost use Rattle.quantity.specs.Order.{ComparisonsAgree, OverflowsPastTheBound, PartsMakeTheNumber};
ghost use Rattle.quantity.specs.ReadBack.{ReadsNothingElse, ReadsWhatIsWritten};
ghost use Rattle.quantity.specs.Tables.{LogicLaws, TablesAsSaid};

/// The answers of the operators on truth values, row by row.
pub fn truth_tables()
    ensures { TablesAsSaid }
{}

/// The order of operands doesn't matter for `and`, `or` and `xor`, nor their grouping for `and` and
/// `or`; `not` exchanges these two.
pub fn logic()
    ensures { LogicLaws }
{}

/// The comparisons agree with each other, and with the lesser and the greater of two values.
pub fn order()
    ensures { ComparisonsAgree }
{}

/// A result overflows exactly where its raw number passes 10^15.
pub fn overflow()
    ensures { OverflowsPastTheBound }
{}

/// The whole part of a number and what is left make the number.
pub fn whole_and_fraction()
    ensures { PartsMakeTheNumber }
{}

/// What is written of a value or a time is read back.
pub fn what_is_written_is_read()
    ensures { ReadsWhatIsWritten }
{}

/// Only what is written is read.
pub fn nothing_else_is_read()
    ensures { ReadsNothingElse }
{}

/// Sums, products, functions and comparisons that compute: halves, bounds, numbers below zero and
/// `?`.
pub fn arithmetic_examples()
    ensures sums { SumsAsSaid }
    ensures products { ProductsAsSaid }
    ensures functions { FunctionsAsSaid }
    ensures comparisons { ComparisonsAsSaid }
{}

/// Texts that compute.
pub fn text_examples()
    ensures literals { LiteralsAsSaid }
    ensures numbers { WholeNumbersAsSaid }
    ensures texts { TextsAsSaid }
    ensures times { TimesAsSaid }
    ensures names { NamesAsSaid }
{}

/// Pairs that are put into a delay list by their times, and results that wait by transport and by
/// inertia.
pub fn delay_list_examples()
    ensures { PairsArePut }
{}
