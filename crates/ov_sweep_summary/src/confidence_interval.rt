/// How many standard deviations to each side hold 95 % of a normal distribution.
const DEVIATIONS: f64 = 1.959963984540054;

/// An interval of shares, each from 0 to 1.
#[derive(Clone, Copy)]
pub struct Interval {
    /// Its lower end.
    pub low: f64,
    /// Its upper end.
    pub high: f64,
}

/// Wilson's interval with a confidence of 95 %, in which the probability of something lies that was seen in `seen` of
/// `runs` runs. Without runs it is all from 0 to 1. (E. B. Wilson, Probable Inference, the Law of Succession, and
/// Statistical Inference, 1927.)
pub fn wilson_interval(seen: u32, runs: u32) -> Interval {
    if runs == 0 {
        return Interval {
            low: 0.0,
            high: 1.0,
        };
    }
    let number = f64::from(runs);
    let share = f64::from(seen) / number;
    let square = DEVIATIONS * DEVIATIONS;
    let scale = 1.0 + square / number;
    let middle = (share + square / (2.0 * number)) / scale;
    let variance = share * (1.0 - share) / number + square / (4.0 * number * number);
    let half = DEVIATIONS * variance.sqrt() / scale;
    Interval {
        low: (middle - half).max(0.0),
        high: (middle + half).min(1.0),
    }
}
