// Products and quotients of signed figures.
ghost use Rattle.std.specs.Prelude.{◌≡◌, ◌<◌, pos, ◌*ℤ◌, MatchOption};
ghost use Rattle.sources.specs.Rounding.{Floor, floor_div};

// A figure counted by a weight: a share, or a number of days.
pub fn weigh(weight: u32, figure: i32) -> i64
    ensures { result ≡ pos weight *ℤ figure }
{
    i64::from(weight) * i64::from(figure)
}

// The quotient rounded down, towards minus infinity; none by 0.
pub fn floor_div(z: i64, by: u32) -> Option<i64>
    ensures answer { MatchOption result (by ≡ 0) (λ q. (0 < by) × (q ≡ floor_div z by)) }
    ensures floor { MatchOption result (by ≡ 0) (λ q. Floor z by q) }
{
    z.checked_div_euclid(i64::from(by))
}
