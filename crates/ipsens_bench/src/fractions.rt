//! Products and differences of fractions of three kinds.
ghost use Rattle.std.specs.Prelude.{◌≤ℤ◌, ◌<ℤ◌, ◌+ℤ◌, ◌^◌, pos};

use frac128::{Frac, frac, mul, sub};

/// The kind of the fractions: whole numbers of 31 bits, such numbers over a denominator below 1,000, or numerators and denominators
/// of up to 100 bits.
#[derive(Clone, Copy)]
pub enum Kind {
    Whole,
    Small,
    Long,
}

/// The fractions that are multiplied and subtracted.
#[derive(Clone, Copy)]
struct Operands {
    left: [Frac; 64],
    factors: [Frac; 64],
    terms: [Frac; 64],
}

/// A linear congruential generator, after Knuth.
#[derive(Clone, Copy)]
struct Source {
    state: u64,
}

impl Source {
    /// A number of 31 bits.
    fn next(&mut self) -> i128
        ensures low { pos 0 ≤ℤ result }
        ensures high { result <ℤ pos (2 ^ 31) }
    {
        self.state = self
            .state
            .wrapping_mul(6364136223846793005)
            .wrapping_add(1442695040888963407);
        i128::from(self.state >> 33)
    }

    /// A number of 31 bits with a sign.
    fn signed(&mut self) -> i128
        ensures low { pos 0 ≤ℤ (result +ℤ pos (2 ^ 30)) }
        ensures high { result <ℤ pos (2 ^ 30) }
    {
        self.next() - 1_073_741_824
    }

    /// A positive number of at most `most`.
    fn up_to(&mut self, most: i128) -> i128
        requires low { pos 0 <ℤ most }
        requires high { most <ℤ pos (2 ^ 31) }
        ensures low { pos 0 <ℤ result }
        ensures high { result ≤ℤ most }
    {
        self.next() % most + 1
    }

    /// A number of 62 bits.
    fn double(&mut self) -> i128
        ensures low { pos 0 ≤ℤ result }
        ensures high { result <ℤ pos (2 ^ 62) }
    {
        let high = self.next();
        high * 2_147_483_648 + self.next()
    }

    /// A positive number of 100 bits.
    fn long(&mut self) -> i128
        ensures low { pos 0 <ℤ result }
        ensures high { result ≤ℤ pos (2 ^ 100) }
    {
        let high = self.double();
        high * 274_877_906_944 + self.next() * 128 + 1
    }
}

/// A fraction to operate on, one to multiply by and one to subtract.
fn sample(kind: Kind, source: &mut Source) -> (Frac, Frac, Frac) {
    match kind {
        Kind::Whole => (
            frac(source.signed(), 1),
            frac(source.signed(), 1),
            frac(source.signed(), 1),
        ),
        Kind::Small => (
            frac(source.signed(), source.up_to(999)),
            frac(source.signed(), source.up_to(999)),
            frac(source.signed(), source.up_to(999)),
        ),
        Kind::Long => (
            frac(source.long(), source.up_to(1_000_000)),
            frac(source.up_to(1_000_000), source.long()),
            frac(source.long(), source.up_to(1_000_000)),
        ),
    }
}

impl Operands {
    /// The operands of a kind, the same at each run.
    fn new(kind: Kind) -> Operands {
        let one = frac(1, 1);
        let mut operands = Operands {
            left: [one; 64],
            factors: [one; 64],
            terms: [one; 64],
        };
        let mut source = Source { state: 2026 };
        for index in 0..64 {
            let (left, factor, term) = sample(kind, &mut source);
            operands.left[index] = left;
            operands.factors[index] = factor;
            operands.terms[index] = term;
        }
        operands
    }

    /// Multiplies and subtracts in turn, `rounds` times in all. The answer is a checksum of the results.
    fn checksum(&self, rounds: u32) -> u64 {
        let mut sum = 0u64;
        for round in 0..rounds {
            let left = self.left[(round % 64) as usize];
            let index = (round / 64 % 64) as usize;
            let answer = if round % 2 == 0 {
                mul(left, self.factors[index])
            } else {
                sub(left, self.terms[index])
            };
            sum = match answer {
                Ok(value) => sum
                    .wrapping_mul(31)
                    .wrapping_add(low_bits(value.num()) ^ low_bits(value.den())),
                Err(_) => sum.wrapping_add(1),
            };
        }
        sum
    }
}

/// The low 64 bits of an absolute value.
#[inline]
fn low_bits(number: i128) -> u64 {
    (number.unsigned_abs() % 18_446_744_073_709_551_616) as u64
}

/// A checksum of a number of operations on fractions of a kind.
pub fn checksum_after(kind: Kind, count: u32) -> u64 {
    Operands::new(kind).checksum(count)
}
