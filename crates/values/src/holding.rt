// A kind of holding: what the nodes bring together. Nothing here says what a holding is made of.
ghost use Rattle.std.specs.Prelude.{◌≡◌};
ghost use Rattle.values.specs.Semilattices.{Semilattice};

pub trait Holding: Copy {
    // the infimum of two holdings
    ghost meet: { Self → Self → Self };

    fn infimum(self, other: Self) -> Self
        ensures value { result ≡ meet self other };

    ghost semilattice: { Semilattice meet };
}
