// A link as it is given: its two ends. Whether they are nodes, and the first the lower, the making of a network tells.
ghost use Rattle.std.specs.Prelude.{◌≡◌};

#[derive(Clone, Copy, PartialEq, Eq, Debug)]
pub struct Link {
    first: u8,
    second: u8,
}

impl Link {
    pub fn new(first: u8, second: u8) -> Link
        ensures first { result.first ≡ first }
        ensures second { result.second ≡ second }
    {
        Link { first, second }
    }

    pub fn first(&self) -> u8
        ensures value { result ≡ self.now.first }
    {
        self.first
    }

    pub fn second(&self) -> u8
        ensures value { result ≡ self.now.second }
    {
        self.second
    }
}
