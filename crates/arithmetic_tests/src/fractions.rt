//! Worked examples, the edge of the range, and random operations, whose checksums another implementation computed.

use frac128::{Frac, Wide, add, ceil_div, cmp, div, floor_div, frac, gcd, mul, sub};
use std::cmp::Ordering;

/// The greatest number of the range.
const MOST: i128 = i128::MAX;

/// 2^126.
const HALF: i128 = 85_070_591_730_234_615_865_843_651_857_942_052_864;

/// The fraction of two numbers, 0 where they are none of a fraction.
fn fraction(num: i128, den: i128) -> Frac {
    if den == 0 || num == i128::MIN || den == i128::MIN {
        frac(0, 1)
    } else {
        frac(num, den)
    }
}

/// Numerator and denominator of a result, and 0, 0 for a wide one.
fn parts(answer: Result<Frac, Wide>) -> (i128, i128) {
    match answer {
        Ok(value) => (value.num(), value.den()),
        Err(Wide) => (0, 0),
    }
}

/// The quotient, wide for a division by 0.
fn quotient(a: Frac, c: Frac) -> Result<Frac, Wide> {
    if c.num() == 0 { Err(Wide) } else { div(a, c) }
}

/// The sign of an order.
fn sign(order: Ordering) -> i128 {
    match order {
        Ordering::Less => -1,
        Ordering::Equal => 0,
        Ordering::Greater => 1,
    }
}

/// An operation on two fractions; the last four are on the first of them alone.
#[derive(Clone, Copy)]
enum Operation {
    Sum,
    Difference,
    Product,
    Quotient,
    Order,
    Rounding,
    LowestTerms,
    Negated,
    Absolute,
}

/// The two numbers of a result.
fn result_of(operation: Operation, x: Frac, y: Frac) -> (i128, i128) {
    match operation {
        Operation::Sum => parts(add(x, y)),
        Operation::Difference => parts(sub(x, y)),
        Operation::Product => parts(mul(x, y)),
        Operation::Quotient => parts(quotient(x, y)),
        Operation::Order => (sign(cmp(x, y)), 1),
        Operation::Rounding => (x.floor(), x.ceil()),
        Operation::LowestTerms => parts(Ok(x)),
        Operation::Negated => parts(Ok(x.negated())),
        Operation::Absolute => parts(Ok(x.absolute())),
    }
}

/// An operation, its two fractions, each a numerator and a denominator, and the two numbers of its result.
type Case = (Operation, (i128, i128), (i128, i128), (i128, i128));

/// The number of the first case whose result is another.
fn first_wrong(cases: &[Case]) -> Option<usize> {
    for (place, (operation, x, y, want)) in cases.iter().enumerate() {
        if result_of(*operation, fraction(x.0, x.1), fraction(y.0, y.1)) != *want {
            return Some(place);
        }
    }
    None
}

/// The second fraction where an operation is on one alone.
const UNUSED: (i128, i128) = (0, 1);

const WORKED: [Case; 12] = [
    (Operation::Sum, (1, 3), (1, 6), (1, 2)),
    (Operation::Difference, (1, 3), (1, 6), (1, 6)),
    (Operation::Product, (HALF, 1), (2, 1), (0, 0)),
    (Operation::Product, (2, 3), (3, 4), (1, 2)),
    (Operation::Quotient, (1, 2), (-3, 4), (-2, 3)),
    (
        Operation::Order,
        (MOST, MOST - 1),
        (MOST - 1, MOST - 2),
        (-1, 1),
    ),
    (Operation::LowestTerms, (6, -4), UNUSED, (-3, 2)),
    (Operation::Negated, (2, 3), UNUSED, (-2, 3)),
    (Operation::Absolute, (2, 3), UNUSED, (2, 3)),
    (Operation::Absolute, (-2, 3), UNUSED, (2, 3)),
    (Operation::Rounding, (-7, 2), UNUSED, (-4, -3)),
    (Operation::Rounding, (7, 2), UNUSED, (3, 4)),
];

#[test]
fn worked_examples(rt: HostRuntime) {
    assert!(rt; first_wrong(WORKED.as_slice()) == None);
}

#[test]
fn whole_numbers(rt: HostRuntime) {
    let least = (-9_223_372_036_854_775_808, 1);
    assert!(rt; parts(Ok(Frac::from_whole(i64::MIN))) == least);
    let third = -56_713_727_820_156_410_577_229_101_238_628_035_243;
    assert!(rt; floor_div(i128::MIN, 3) == third);
    assert!(rt; ceil_div(i128::MIN, 1) == i128::MIN);
    assert!(rt; gcd(0, 0) == 0);
    assert!(rt; gcd(12, 18) == 6);
    assert!(rt; gcd(1 << 127, 3 << 100) == 1 << 100);
}

/// 2^64.
const WORD: i128 = 18_446_744_073_709_551_616;

const EDGE: [Case; 17] = [
    (Operation::Sum, (MOST - 1, 1), (1, 1), (MOST, 1)),
    (Operation::Sum, (MOST, 1), (1, 1), (0, 0)),
    (Operation::Sum, (1 - MOST, 1), (-1, 1), (-MOST, 1)),
    (Operation::Sum, (-MOST, 1), (-1, 1), (0, 0)),
    (
        Operation::Sum,
        (1, WORD / 2),
        (1, WORD - 1),
        (27_670_116_110_564_327_423, MOST - WORD / 2 + 1),
    ),
    (Operation::Sum, (1, WORD), (1, WORD / 2 + 1), (0, 0)),
    (Operation::Sum, (1, HALF), (1, HALF), (1, HALF / 2)),
    (Operation::Difference, (1 - MOST, 1), (1, 1), (-MOST, 1)),
    (Operation::Difference, (-MOST, 1), (1, 1), (0, 0)),
    (Operation::Difference, (MOST, 2), (-1, 1), (0, 0)),
    (Operation::Product, (MOST, 1), (-1, 1), (-MOST, 1)),
    (Operation::Product, (-HALF, 1), (2, 1), (0, 0)),
    (Operation::Product, (HALF, 3), (3, HALF), (1, 1)),
    (Operation::Product, (1, HALF), (1, 2), (0, 0)),
    (Operation::Quotient, (MOST, 1), (1, 1), (MOST, 1)),
    (Operation::Quotient, (-HALF, 1), (1, 2), (0, 0)),
    (Operation::Quotient, (MOST, 2), (MOST, 2), (1, 1)),
];

#[test]
fn the_edge_of_the_range(rt: HostRuntime) {
    assert!(rt; first_wrong(EDGE.as_slice()) == None);
}

/// The limits below which the numerators and the denominators of random fractions lie, in absolute value.
const LIMITS: [(u128, u128); 6] = [
    (2, 2),
    (1 << 31, 1000),
    (1 << 64, 1 << 63),
    (1 << 100, 1 << 20),
    (1 << 20, 1 << 100),
    ((1 << 127) - 1, 3),
];

/// A linear congruential generator, after Knuth.
#[derive(Drop)]
struct Source {
    state: u64,
}

impl Source {
    /// A number of 31 bits.
    fn next(&mut self) -> u64 {
        self.state = self
            .state
            .wrapping_mul(6364136223846793005)
            .wrapping_add(1442695040888963407);
        self.state >> 33
    }

    /// A number of either sign below a limit in absolute value.
    fn below(&mut self, limit: u128) -> i128 {
        let positive = self.next() % 2 == 0;
        let mut number = 0u128;
        for _ in 0..5 {
            number = number
                .wrapping_mul(1 << 31)
                .wrapping_add(u128::from(self.next()));
        }
        let absolute = i128::try_from(number.checked_rem(limit).unwrap_or(0)).unwrap_or(0);
        if positive {
            absolute
        } else {
            absolute.wrapping_neg()
        }
    }

    /// A fraction of one of eight kinds: below one of the limits, of the denominator of another fraction, or its reciprocal.
    fn operand(&mut self, kind: usize, like: Frac) -> Frac {
        match LIMITS.get(kind) {
            Some((most, most_den)) => {
                let num = self.below(*most);
                fraction(num, self.below(*most_den))
            }
            None if kind == 6 => fraction(self.below(1 << 40), like.den()),
            None => fraction(like.den(), like.num()),
        }
    }
}

/// A checksum with one more number: its low and its high 64 bits, and its sign.
fn mixed(total: u64, number: i128) -> u64 {
    let absolute = number.unsigned_abs();
    let low = u64::try_from(absolute % (1 << 64)).unwrap_or(0);
    let high = u64::try_from(absolute >> 64).unwrap_or(0);
    total
        .wrapping_mul(31)
        .wrapping_add(low.wrapping_mul(3))
        .wrapping_add(high.wrapping_mul(5))
        .wrapping_add(u64::from(number < 0))
}

/// The checksum of 4,096 results.
fn checksum(operation: Operation) -> u64 {
    let mut source = Source { state: 2026 };
    let mut total = 0;
    for case in 0..4096usize {
        let x = source.operand(case % 6, frac(0, 1));
        let y = source.operand(case / 6 % 8, x);
        let (first, second) = result_of(operation, x, y);
        total = mixed(mixed(total, first), second);
    }
    total
}

/// The checksums that `tools/vectors/frac128.py` computed.
#[test]
fn random_operations(rt: HostRuntime) {
    let table = [
        (Operation::Sum, 681510758892488967),
        (Operation::Difference, 807475787703459590),
        (Operation::Product, 2572655819194597552),
        (Operation::Quotient, 11837556022792784862),
        (Operation::Order, 12175214840352729347),
        (Operation::Rounding, 6969714028429243313),
    ];
    for (operation, want) in table {
        assert!(rt; checksum(operation) == want);
    }
}
