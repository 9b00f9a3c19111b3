// A device made, and what it tells of itself.
ghost use Rattle.std.specs.Prelude.{◌≡◌, ◌<◌, ◌≤◌, MatchResult};
ghost use Rattle.base.specs.declared.refusal.Refusal.TheVariants.{ClassOutOfRange};

use super::{Device, LAST_CLASS};
use base::refusal::Refusal;

impl Device {
    pub fn new(class: u8, number: u16) -> Result<Device, Refusal>
        ensures value { MatchResult result (λ d. (class ≤ 15) × (d.class ≡ class) × (d.number ≡ number)) (λ e. (15 < class) × (e ≡ ClassOutOfRange)) }
    {
        if class > LAST_CLASS {
            return Err(Refusal::ClassOutOfRange);
        }
        Ok(Device { class, number })
    }

    pub fn class(self) -> u8
        ensures value { result ≡ self.class }
    {
        self.class
    }

    pub fn number(self) -> u16
        ensures value { result ≡ self.number }
    {
        self.number
    }
}
