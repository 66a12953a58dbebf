//! Which column of a point is split: one of those whose splits have raised bounds most so far. Nothing is promised of the choice; the idea
//! of such pseudo-costs is that of Benichou and others (Experiments in mixed-integer linear programming, 1971).
use frac128::Frac;
use ip_defs::{Memory, Parts};
use std::alloc::Global;

/// How many parts of 1 the numbers of a chooser count: 2^16.
const UNIT: u64 = 1 << 16;

/// What splits of a column have gained on one side: the sum of what a whole unit of the column would have raised the cost by, and of how
/// many splits.
#[derive(Clone, Copy, Debug)]
struct Gain {
    sum: u64,
    count: u64,
}

/// The gains of a column in its lower and in its upper halves.
#[derive(Clone, Copy, Debug)]
struct Gains {
    lower: Gain,
    upper: Gain,
}

/// How a node was made: by a split at a column, which moved the column by a distance from a point of a cost, in parts of a unit.
#[derive(Clone, Copy, Debug)]
struct Birth {
    column: usize,
    is_upper: bool,
    distance: u64,
    cost: i128,
}

/// What is known of the gains of splits.
#[derive(Drop)]
pub struct Chooser {
    columns: Vec<Gains>,
    /// Of all columns.
    all: Gains,
    /// Of each node how it was made, by its key; of the root nothing is kept.
    births: Vec<Option<Birth>>,
    /// How the node at hand was made.
    current: Option<Birth>,
}

/// A number in parts of a unit: its whole part, and its fraction.
fn parts_of(number: Frac) -> (i128, u64) {
    let den = number.den().unsigned_abs();
    let rest = number.num().rem_euclid(number.den()).unsigned_abs();
    let shift = 96_u32.saturating_sub(den.leading_zeros());
    let whole = u64::try_from(den >> shift).unwrap_or(1).max(1);
    let part = u64::try_from(rest >> shift).unwrap_or(0);
    let fraction = part.wrapping_mul(UNIT) / whole;
    (number.floor(), fraction)
}

impl Gain {
    fn none() -> Gain {
        Gain { sum: 0, count: 0 }
    }

    fn add(&mut self, gain: u64) {
        self.sum = self.sum.saturating_add(gain);
        self.count = self.count.saturating_add(1);
    }

    /// The average, where something was gained so far.
    fn average(&self) -> Option<u64> {
        if self.count == 0 {
            None
        } else {
            Some(self.sum / self.count)
        }
    }

    /// What a split that moves the column by a distance can be expected to gain.
    fn expected(&self, all: &Gain, distance: u64) -> u128 {
        let average = match self.average() {
            Some(average) => average,
            None => all.average().unwrap_or(UNIT),
        };
        (u128::from(average).wrapping_mul(u128::from(distance)) >> 16).max(1)
    }
}

impl Gains {
    fn none() -> Gains {
        Gains {
            lower: Gain::none(),
            upper: Gain::none(),
        }
    }

    fn add(&mut self, is_upper: bool, gain: u64) {
        if is_upper {
            self.upper.add(gain);
        } else {
            self.lower.add(gain);
        }
    }
}

/// The cost of a point in parts of a unit, about.
fn cost_of(parts: &Parts, point: &[Frac]) -> i128 {
    let mut total: i128 = 0;
    for (column, number) in parts.columns.as_slice().iter().zip(point) {
        if column.cost != 0 {
            let (whole, fraction) = parts_of(*number);
            let units = whole
                .wrapping_mul(i128::from(UNIT))
                .wrapping_add(i128::from(fraction));
            total = total.wrapping_add(i128::from(column.cost).wrapping_mul(units));
        }
    }
    total
}

impl Chooser {
    /// A chooser that has seen no split yet.
    pub fn new(alloc: Global, columns: usize) -> Result<Chooser, Memory> {
        let mut births = Vec::new(alloc);
        births.push(None)?;
        Ok(Chooser {
            columns: vec![in alloc; Gains::none(); columns]?,
            all: Gains::none(),
            births,
            current: None,
        })
    }

    /// Says that the node with a key is looked at from now on.
    pub fn enter(&mut self, key: usize) {
        self.current = match self.births.get(key) {
            Some(birth) => *birth,
            None => None,
        };
    }

    /// Learns from the node at hand, whose least cost is known.
    fn learn(&mut self, cost: i128) {
        let birth = match self.current {
            Some(birth) => birth,
            None => return,
        };
        self.current = None;
        let risen = u64::try_from(cost.wrapping_sub(birth.cost).max(0)).unwrap_or(u64::MAX);
        let gain = u128::from(risen).wrapping_mul(u128::from(UNIT))
            / u128::from(birth.distance.max(1));
        let gain = u64::try_from(gain).unwrap_or(u64::MAX).min(1 << 40);
        self.all.add(birth.is_upper, gain);
        match self.columns.get_mut(birth.column) {
            Some(gains) => gains.add(birth.is_upper, gain),
            None => {}
        }
    }

    /// How good a split of a column with a fraction would be: the product of what its halves can be expected to gain, and how near the
    /// fraction is to the middle.
    fn score(&self, column: usize, fraction: u64) -> (u128, u64) {
        let gains = match self.columns.get(column) {
            Some(gains) => *gains,
            None => Gains::none(),
        };
        let rest = UNIT.wrapping_sub(fraction);
        let lower = gains.lower.expected(&self.all.lower, fraction);
        let upper = gains.upper.expected(&self.all.upper, rest);
        (lower.saturating_mul(upper), fraction.min(rest))
    }

    /// The column of a point that looks best, after the chooser has learned from the point.
    pub fn choose(&mut self, parts: &Parts, point: &[Frac]) -> usize {
        self.learn(cost_of(parts, point));
        let mut best = 0;
        let mut most = (0, 0);
        for (j, number) in point.iter().enumerate() {
            if number.den() != 1 {
                let (_, fraction) = parts_of(*number);
                let score = self.score(j, fraction);
                if score > most {
                    most = score;
                    best = j;
                }
            }
        }
        best
    }

    /// Says that a node is split at a column of its point: its halves have the next keys.
    pub fn split(&mut self, parts: &Parts, point: &[Frac], column: usize) -> Result<(), Memory> {
        let fraction = match point.get(column) {
            Some(number) => parts_of(*number).1,
            None => 0,
        };
        let cost = cost_of(parts, point);
        self.births.push(Some(Birth {
            column,
            is_upper: false,
            distance: fraction,
            cost,
        }))?;
        self.births.push(Some(Birth {
            column,
            is_upper: true,
            distance: UNIT.wrapping_sub(fraction),
            cost,
        }))?;
        Ok(())
    }

    /// Says that a node is split without a point: nothing is learned from its halves, which have the next keys.
    pub fn halve(&mut self) -> Result<(), Memory> {
        self.births.push(None)?;
        self.births.push(None)?;
        Ok(())
    }
}
