// A least holding made, and what it tells of itself.
ghost use Rattle.std.specs.Prelude.{◌≡◌};

use super::Least;

impl Least {
    pub fn new(value: u32) -> Least
        ensures value { result.value ≡ value }
    {
        Least { value }
    }

    pub fn value(self) -> u32
        ensures value { result ≡ self.value }
    {
        self.value
    }
}

// By hand, since no derive of it is taken beside a ghost field.
impl Default for Least {
    ghost is_default = { λ least. least.value ≡ 0 };

    fn default() -> Least {
        Least::new(0)
    }
}
