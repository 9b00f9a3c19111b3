// An inventory made, and what it tells of itself.
ghost use Rattle.std.specs.Prelude.{◌≡◌};
ghost use Rattle.values.specs.Inventories.{inventory_of};

use super::Inventory;

impl Inventory {
    #[tactic(auto, using(crate::specs::Parts::same_inventory), unfolding(crate::specs::Inventories::inventory_of))]
    pub fn new(firmware: u16, services: u16, delay: u16) -> Inventory
        ensures value { result ≡ inventory_of firmware services delay }
        ensures firmware { result.firmware ≡ firmware }
        ensures services { result.services ≡ services }
        ensures delay { result.delay ≡ delay }
    {
        Inventory {
            firmware,
            services,
            delay,
        }
    }

    pub fn firmware(self) -> u16
        ensures value { result ≡ self.firmware }
    {
        self.firmware
    }

    // One bit for each service.
    pub fn services(self) -> u16
        ensures value { result ≡ self.services }
    {
        self.services
    }

    pub fn delay(self) -> u16
        ensures value { result ≡ self.delay }
    {
        self.delay
    }
}

// By hand, since no derive of it is taken beside a ghost field.
impl Default for Inventory {
    ghost is_default = { λ inventory. (inventory.firmware ≡ 0) × (inventory.services ≡ 0) × (inventory.delay ≡ 0) };

    fn default() -> Inventory {
        Inventory::new(0, 0, 0)
    }
}
