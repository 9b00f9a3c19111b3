// Devices as keys: by class, then by number, the smaller before.
ghost use Rattle.values.specs.Devices.{device_before, device_matches};
ghost use Rattle.values.specs.Orderings.{device_order, device_equality};

use super::Device;
use crate::key::KeyOrder;

impl KeyOrder for Device {
    ghost precedes = { device_before };

    ghost matches = { device_matches };

    ghost ordered = { device_order };

    ghost decided = { device_equality };

    fn before(&self, other: &Device) -> bool {
        self < other
    }

    fn equals(&self, other: &Device) -> bool {
        self == other
    }
}
