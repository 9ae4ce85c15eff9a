//! The sums of a least-squares line, and the line.

ghost use Rattle.std.specs.Prelude.{◌≡◌, ◌≤◌, ◌^◌, ◌+ℤ◌, ◌-ℤ◌, ◌*ℤ◌, pos};
ghost use Rattle.std.specs.Int.RustNames.{unsigned_abs};
ghost use Rattle.purge.specs.Sizes.{AreSmallSums, IsSmallLine, IsSmallPoint};

/// The sums over some points of one axis, each with a time and a position.
#[derive(Clone, Copy)]
pub struct Sums {
    pub count: i128,
    pub times: i128,
    pub squares: i128,
    pub positions: i128,
    pub products: i128,
}

/// A line: at the time s its position is (level + slope * s) / scale.
#[derive(Clone, Copy)]
pub struct SquaresLine {
    pub level: i128,
    pub slope: i128,
    pub scale: i128,
}

/// The sums over no points.
pub fn no_sums() -> Sums
    ensures count { result.count ≡ pos 0 }
    ensures times { result.times ≡ pos 0 }
    ensures squares { result.squares ≡ pos 0 }
    ensures positions { result.positions ≡ pos 0 }
    ensures products { result.products ≡ pos 0 }
{
    Sums {
        count: 0,
        times: 0,
        squares: 0,
        positions: 0,
        products: 0,
    }
}

/// The sums over some points and one more.
pub fn with_point(sums: Sums, time: i128, position: i128) -> Sums
    requires sums { AreSmallSums sums.count sums.times sums.squares sums.positions sums.products }
    requires point { IsSmallPoint time position }
    ensures count { result.count ≡ sums.count +ℤ pos 1 }
    ensures times { result.times ≡ sums.times +ℤ time }
    ensures squares { result.squares ≡ sums.squares +ℤ (time *ℤ time) }
    ensures positions { result.positions ≡ sums.positions +ℤ position }
    ensures products { result.products ≡ sums.products +ℤ (time *ℤ position) }
{
    Sums {
        count: sums.count + 1,
        times: sums.times + time,
        squares: sums.squares + time * time,
        positions: sums.positions + position,
        products: sums.products + time * position,
    }
}

/// The least-squares line of points by their sums.
pub fn line_of(sums: Sums) -> SquaresLine
    requires { AreSmallSums sums.count sums.times sums.squares sums.positions sums.products }
    ensures level { result.level ≡
        (sums.positions *ℤ sums.squares) -ℤ (sums.times *ℤ sums.products) }
    ensures slope { result.slope ≡ (sums.count *ℤ sums.products) -ℤ (sums.times *ℤ sums.positions) }
    ensures scale { result.scale ≡ (sums.count *ℤ sums.squares) -ℤ (sums.times *ℤ sums.times) }
    ensures size { IsSmallLine result.scale result.slope result.level }
{
    SquaresLine {
        level: sums.positions * sums.squares - sums.times * sums.products,
        slope: sums.count * sums.products - sums.times * sums.positions,
        scale: sums.count * sums.squares - sums.times * sums.times,
    }
}

/// How far a point lies from the line, times its scale.
pub fn distance_from(line: SquaresLine, time: i128, position: i128) -> u128
    requires line { IsSmallLine line.scale line.slope line.level }
    requires point { IsSmallPoint time position }
    ensures { result ≡ unsigned_abs
        ((position *ℤ line.scale) -ℤ (line.level +ℤ (line.slope *ℤ time))) }
{
    (position * line.scale - (line.level + line.slope * time)).unsigned_abs()
}
