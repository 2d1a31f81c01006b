// Counts that are made at most once in one evaluation.
ghost use Rattle.std.specs.Prelude.{◌≡◌, ◌<◌, IfSome};
ghost use Rattle.rule_tree.specs.Meaning.{outs, neighbour_count};
ghost use Rattle.rule_eval.specs.Seen.{IsView, sight_of_view};
ghost use Rattle.rule_eval.specs.Kept.{AreCounts, place_of};
ghost use Rattle.rule_eval.specs.Tallies.{IsTally};

use crate::seen::{counted_first, counted_outs};
use crate::tally::Tally;
use crate::view::View;
use rule_tree::Count;

/// The numbers of neighbours that words count over one view, each from when it is first asked for.
#[derive(Clone, Copy)]
pub struct Counts {
    // By the place of the word.
    numbers: [Option<u8>; 3],
}

impl Counts {
    /// None is counted yet.
    #[tactic(auto, using(crate::proofs::KeptNumbers::none_kept))]
    pub(crate) fn none(view: &View) -> Counts
        ensures { AreCounts result view.now }
    {
        // For the proof: only the clauses speak of it.
        let _view = view;
        Counts {
            numbers: [None, None, None],
        }
    }

    /// All are counted, as this tally has them.
    #[tactic(auto, using(crate::proofs::KeptNumbers::all_kept))]
    #[inline(always)]
    fn of(tally: Tally, view: &View) -> Counts
        requires { IsTally tally (outs (sight_of_view view.now)) }
        ensures { AreCounts result view.now }
    {
        // For the proof: only the clauses speak of it.
        let _view = view;
        Counts {
            numbers: [Some(tally.ones), Some(tally.zeros), Some(tally.undefs)],
        }
    }

    /// All are counted where they are known, else none yet.
    #[inline(always)]
    pub(crate) fn known(tally: Option<Tally>, view: &View) -> Counts
        requires { IfSome tally (λ t. IsTally t (outs (sight_of_view view.now))) }
        ensures { AreCounts result view.now }
    {
        match tally {
            Some(tally) => Counts::of(tally, view),
            None => Counts::none(view),
        }
    }

    /// The number of neighbours that a word counts.
    #[tactic(auto, using(crate::proofs::KeptNumbers::kept_is_counted))]
    #[inline(always)]
    pub(crate) fn number(&mut self, count: Count, view: &View) -> u8
        requires view { IsView view.now }
        requires counts { AreCounts self.old view.now }
        ensures value { result ≡ neighbour_count count (outs (sight_of_view view.now)) }
        ensures counts { AreCounts self.new view.now }
    {
        match self.numbers[place(count)] {
            Some(number) => number,
            None => self.make(count, view),
        }
    }

    /// Makes the number that a word counts.
    #[inline(never)]
    fn make(&mut self, count: Count, view: &View) -> u8
        requires view { IsView view.now }
        requires counts { AreCounts self.old view.now }
        ensures value { result ≡ neighbour_count count (outs (sight_of_view view.now)) }
        ensures counts { AreCounts self.new view.now }
    {
        if view.ports == 0 {
            self.keep(count, counted_outs(count, view), view)
        } else {
            self.make_first(count, view)
        }
    }

    /// The same where neighbours have further ports.
    #[inline(never)]
    fn make_first(&mut self, count: Count, view: &View) -> u8
        requires view { IsView view.now }
        requires counts { AreCounts self.old view.now }
        ensures value { result ≡ neighbour_count count (outs (sight_of_view view.now)) }
        ensures counts { AreCounts self.new view.now }
    {
        self.keep(count, counted_first(count, view), view)
    }

    /// Keeps the number that a word counts, and gives it back.
    #[tactic(auto, using(crate::proofs::KeptNumbers::one_more))]
    #[inline(always)]
    fn keep(&mut self, count: Count, number: u8, view: &View) -> u8
        requires counts { AreCounts self.old view.now }
        requires number { number ≡ neighbour_count count (outs (sight_of_view view.now)) }
        ensures value { result ≡ neighbour_count count (outs (sight_of_view view.now)) }
        ensures counts { AreCounts self.new view.now }
    {
        // For the proof: only the clauses speak of it.
        let _view = view;
        self.numbers[place(count)] = Some(number);
        number
    }
}

/// Where the number of a word stands.
#[inline(always)]
fn place(count: Count) -> usize
    ensures value { result ≡ place_of count }
    ensures within { result < 3 }
{
    match count {
        Count::Ones => 0,
        Count::Zeros => 1,
        Count::Undefs => 2,
    }
}
