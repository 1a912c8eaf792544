//! Numbers for readers: fractions, percentages and round steps.

use std::fmt;

/// Returns `numerator / denominator` of `number`, rounded down. The result saturates at `u64::MAX`,
/// and a denominator of 0 counts as 1.
pub fn fraction(number: u64, numerator: u64, denominator: u64) -> u64 {
    let product = u128::from(number).saturating_mul(u128::from(numerator));
    u64::try_from(product / u128::from(denominator.max(1))).unwrap_or(u64::MAX)
}

/// Returns `numerator / denominator` of `number`, rounded up. The result saturates at `u64::MAX`,
/// and a denominator of 0 counts as 1.
pub fn fraction_ceil(number: u64, numerator: u64, denominator: u64) -> u64 {
    let product = u128::from(number).saturating_mul(u128::from(numerator));
    u64::try_from(product.div_ceil(u128::from(denominator.max(1)))).unwrap_or(u64::MAX)
}

/// A part of a whole, which is shown in percent with two decimals, rounded down.
#[derive(Clone, Copy)]
pub struct Percentage {
    /// The part.
    pub part: u64,
    /// The whole.
    pub whole: u64,
}

impl Percentage {
    /// Returns the part in basis points (hundredths of a percent) of the whole, rounded down.
    pub fn basis_points(self) -> u64 {
        fraction(10_000, self.part, self.whole)
    }
}

impl fmt::Display for Percentage {
    fn fmt<W: fmt::Write>(&self, f: &mut fmt::Formatter<W>) -> fmt::Result {
        let points = self.basis_points();
        write!(f, "{}.{:02}%", points / 100, points % 100)
    }
}

/// Returns the number of decimal digits of `number`.
pub fn digits(number: u64) -> u64 {
    number.checked_ilog10().map_or(1, |log| u64::from(log) + 1)
}

/// Returns the least of 1, 2, 5, 10, 20, 50 and so on that fits into `length` at most six times.
pub fn round_step(length: u64) -> u64 {
    let mut unit = 1u64;
    // 10 to the power of 20 is more than `u64::MAX`.
    for _ in 0..20 {
        for factor in [1u64, 2, 5] {
            let step = unit.saturating_mul(factor);
            if length / step.max(1) <= 6 {
                return step;
            }
        }
        unit = unit.saturating_mul(10);
    }
    unit
}
