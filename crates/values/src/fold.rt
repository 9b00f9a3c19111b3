// The plain fold: the infimum of all holdings, from left to right.
ghost use Rattle.std.specs.Prelude.{◌≡◌};
ghost use Rattle.values.specs.Folds.{Folding, fold_of};

use crate::holding::Holding;

// The infimum of all holdings in node order, and none of no holdings.
pub fn fold<T: Holding>(own: &[T]) -> Option<T>
    ensures value { result ≡ fold_of T.meet own.now }
    ensures laws { Folding T.meet own.now result }
{
    let (first, rest) = own.split_first()?;
    let mut all = *first;
    for next in rest {
        all = all.infimum(*next);
    }
    Some(all)
}
