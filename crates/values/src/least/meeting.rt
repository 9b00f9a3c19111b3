// The infimum of two least holdings is the smaller.
ghost use Rattle.values.specs.Leasts.{smaller};
ghost use Rattle.values.specs.Meetings.{least_laws};

use super::Least;
use crate::holding::Holding;

impl Holding for Least {
    ghost meet = { smaller };

    ghost semilattice = { least_laws };

    fn infimum(self, other: Least) -> Least {
        self.min(other)
    }
}
