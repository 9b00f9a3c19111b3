// The infimum of two inventories: the smaller firmware, the services set in both, the larger delay.
ghost use Rattle.std.specs.Prelude.{◌≡◌, min, max, bit_and};
ghost use Rattle.values.specs.Inventories.{common};
ghost use Rattle.values.specs.Meetings.{inventory_laws};

use super::Inventory;
use crate::holding::Holding;

impl Holding for Inventory {
    ghost meet = { common };

    ghost semilattice = { inventory_laws };

    fn infimum(self, other: Inventory) -> Inventory
        ensures value { result ≡ common self other }
        ensures firmware { result.firmware ≡ min self.firmware other.firmware }
        ensures services { result.services ≡ bit_and self.services other.services }
        ensures delay { result.delay ≡ max self.delay other.delay }
    {
        Inventory::new(
            self.firmware.min(other.firmware),
            self.services & other.services,
            self.delay.max(other.delay),
        )
    }
}
