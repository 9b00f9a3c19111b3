// A few different values of each kind of key and of holding, as many as a network has nodes.
ghost use Rattle.std.specs.Prelude.{◌≤◌};

use crate::MOST_NODES;
use values::device::Device;
use values::inventory::Inventory;
use values::least::Least;
use values::number::Number;

const SAMPLES: usize = MOST_NODES as usize;

pub(crate) trait Sampled: Copy {
    // The values stand in no order; past the last they come again.
    fn sample(which: u8) -> Self;
}

impl Sampled for Number {
    fn sample(which: u8) -> Number {
        picked(which, &[40, 7, u32::MAX, 21].map(Number::new))
    }
}

impl Sampled for Device {
    fn sample(which: u8) -> Device {
        picked(
            which,
            &[
                device(3, 40),
                device(1, 900),
                device(3, 7),
                device(0, 65535),
            ],
        )
    }
}

impl Sampled for Least {
    fn sample(which: u8) -> Least {
        picked(which, &[500, 800, 300, u32::MAX].map(Least::new))
    }
}

impl Sampled for Inventory {
    fn sample(which: u8) -> Inventory {
        picked(
            which,
            &[
                Inventory::new(210, 0b0111, 12),
                Inventory::new(190, 0b1110, 8),
                Inventory::new(230, 0b1101, 30),
                Inventory::new(200, 0b1011, 25),
            ],
        )
    }
}

fn picked<V: Copy>(which: u8, values: &[V; SAMPLES]) -> V {
    values[which as usize % SAMPLES]
}

// The device of a class that is known.
fn device(class: u8, number: u16) -> Device
    requires known { class ≤ 15 }
{
    Device::new(class, number).unwrap()
}
