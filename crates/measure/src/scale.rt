// What every measure offers, and the laws that it must show.
ghost use Rattle.std.specs.Prelude.{◌≡◌};
ghost use Rattle.measure.specs.Scale.{Scale, Lawful};

pub trait Measure: Copy {
    ghost scale: { Scale Self };

    // The value before any price is joined.
    fn start() -> Self
        ensures { result ≡ scale.start };

    // This value with another joined to it.
    fn join(self, other: Self) -> Self
        ensures { result ≡ scale.join self other };

    // Whether this value is at most another.
    fn at_most(self, other: Self) -> bool
        ensures { result ≡ scale.at_most self other };

    ghost lawful: { Lawful scale };
}
