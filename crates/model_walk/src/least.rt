// The least of the refusals of a phase.
ghost use Rattle.std.specs.Prelude.{◌≡◌, ◌||◌, ◌&&◌};
ghost use Rattle.std.specs.Option.{option_map};
ghost use Rattle.model_text.specs.Keyed.{comes_before};
ghost use Rattle.model_walk.specs.Shown.{refusal_of};
ghost use Rattle.model_walk.specs.Least.{earlier_refusal, LeastOfBoth};

use crate::refused::Refused;

/// The least line of two refusals, and on one line the least number; the first where both are the
/// same.
#[inline(always)]
#[tactic(auto, using(crate::proofs::Named::decided))]
pub fn least(a: Option<Refused>, b: Option<Refused>) -> Option<Refused>
    ensures { option_map refusal_of result
        ≡ earlier_refusal (option_map refusal_of a) (option_map refusal_of b) }
{
    let Some(first) = a else {
        return b;
    };
    let Some(second) = b else {
        return Some(first);
    };
    if comes_before(&second, &first) {
        return Some(second);
    }
    Some(first)
}

fn comes_before(a: &Refused, b: &Refused) -> bool
    ensures { result ≡ comes_before (refusal_of a.now) (refusal_of b.now) }
{
    a.line < b.line || (a.line == b.line && a.kind.number() < b.kind.number())
}

/// The least of the refusals of two parts is the lesser of their least ones.
#[tactic(auto, using(crate::proofs::Orders::least_of_both))]
pub fn least_of_both()
    ensures { LeastOfBoth }
{}
