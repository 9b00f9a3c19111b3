// Numbers as keys: the smaller is before.
ghost use Rattle.values.specs.Numbers.{number_before, number_matches};
ghost use Rattle.values.specs.Orderings.{number_order, number_equality};

use super::Number;
use crate::key::KeyOrder;

impl KeyOrder for Number {
    ghost precedes = { number_before };

    ghost matches = { number_matches };

    ghost ordered = { number_order };

    ghost decided = { number_equality };

    fn before(&self, other: &Number) -> bool {
        self < other
    }

    fn equals(&self, other: &Number) -> bool {
        self == other
    }
}
