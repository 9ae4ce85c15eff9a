//! The circle of right ascension.
ghost use Rattle.std.specs.Prelude.{◌≡◌, pos, neg_ℤ, ◌^◌, ◌≤ℤ◌};
ghost use Rattle.sky_math.specs.Circle.{wrapped, lifted, IsWrapped};
ghost use Rattle.sky_units.specs.Ranges.{IsRightAscension};

/// One turn of the circle of right ascension, in 10^-6 degree.
const FULL_TURN: i64 = 360_000_000;

/// Half a turn, in 10^-6 degree.
const HALF_TURN: i64 = 180_000_000;

/// The lifted right ascension: where `ra` lies as seen from `base`, not reduced to the circle
/// (10^-6 degree; the definition `lifted`).
pub fn lift(base: i64, ra: i64) -> i64
    requires base { IsRightAscension base }
    requires ra { IsRightAscension ra }
    ensures { result ≡ lifted base ra }
{
    base + wrap(ra - base)
}

/// The wrapped difference: `d` less whole turns, from -180,000,000 to 179,999,999
/// (10^-6 degree; the definition `wrapped`).
pub fn wrap(d: i64) -> i64
    requires low { neg_ℤ (pos (2 ^ 62)) ≤ℤ d }
    requires high { d ≤ℤ pos (2 ^ 62) }
    ensures value { result ≡ wrapped d }
    ensures turns { IsWrapped d result }
{
    (d + HALF_TURN).rem_euclid(FULL_TURN) - HALF_TURN
}
