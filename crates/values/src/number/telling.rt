// A number made, and what it tells of itself.
ghost use Rattle.std.specs.Prelude.{◌≡◌};

use super::Number;

impl Number {
    pub fn new(value: u32) -> Number
        ensures value { result.value ≡ value }
    {
        Number { value }
    }

    pub fn value(self) -> u32
        ensures value { result ≡ self.value }
    {
        self.value
    }
}
