ghost use Rattle.std.specs.Prelude.{◌≡◌, ◌≤◌, ◌<◌, ◌+◌, ◌*◌, true, false};
ghost use Rattle.cept_plot.specs.Figures.{distance};
ghost use Rattle.cept_plot.specs.inside.Rounding.{IsSlope};

/// How a coordinate goes on along a line: at each step by a part of a whole, up or down.
#[derive(Clone, Copy)]
pub(crate) struct Slope {
    pub(crate) part: u16,
    pub(crate) whole: u16,
    pub(crate) rises: bool,
}

/// Where a coordinate is along a line: the number to which it is rounded, and the rest that was
/// rounded off, less than a whole.
#[derive(Clone, Copy)]
pub(crate) struct Coordinate {
    pub(crate) at: u8,
    pub(crate) rest: u16,
}

/// How far two numbers are apart.
pub(crate) fn distance(a: u8, b: u8) -> u8
    ensures { result ≡ distance a b }
{
    if a <= b { b - a } else { a - b }
}

impl Slope {
    /// That of so many steps from one number to another. A whole is two steps, so that half of it is
    /// a whole number.
    pub(crate) fn new(from: u8, to: u8, steps: u8) -> Slope
        ensures { IsSlope result from to steps }
    {
        Slope {
            part: 2 * u16::from(distance(from, to)),
            whole: 2 * u16::from(steps),
            rises: from <= to,
        }
    }
}

impl Coordinate {
    /// Where it starts: nothing is rounded off, and the half that rounds to the nearest number is the
    /// rest.
    pub(crate) fn start(at: u8, steps: u8) -> Coordinate
        ensures at { result.at ≡ at }
        ensures rest { result.rest ≡ steps }
    {
        Coordinate {
            at,
            rest: u16::from(steps),
        }
    }

    /// One step further.
    #[inline(always)]
    pub(crate) fn next(self, slope: &Slope) -> Coordinate
        requires whole { slope.now.whole ≤ 510 }
        requires part { slope.now.part ≤ slope.now.whole }
        requires rest { self.rest < slope.now.whole }
        requires above { slope.now.rises ≡ true → slope.now.whole ≤ self.rest + slope.now.part
            → self.at < 255 }
        requires below { slope.now.rises ≡ false → self.rest < slope.now.part → 0 < self.at }
        ensures up { slope.now.rises ≡ true → slope.now.whole * result.at + result.rest
            ≡ slope.now.whole * self.at + self.rest + slope.now.part }
        ensures down { slope.now.rises ≡ false
            → slope.now.whole * result.at + result.rest + slope.now.part
            ≡ slope.now.whole * self.at + self.rest }
        ensures rest { result.rest < slope.now.whole }
    {
        let Coordinate { at, rest } = self;
        if slope.rises {
            let sum = rest + slope.part;
            if sum < slope.whole {
                Coordinate { at, rest: sum }
            } else {
                Coordinate {
                    at: at + 1,
                    rest: sum - slope.whole,
                }
            }
        } else if slope.part <= rest {
            Coordinate {
                at,
                rest: rest - slope.part,
            }
        } else {
            Coordinate {
                at: at - 1,
                rest: rest + slope.whole - slope.part,
            }
        }
    }
}
