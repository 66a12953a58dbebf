//! A line of a tableau: fractions by the number of their variable.
ghost use Rattle.std.specs.Prelude.{◌≡◌, ◌<◌, length, slice_set};
ghost use Rattle.tableau.specs.Tables.{at};

use frac128::Frac;
use std::marker::Model;

/// A line of numbers, one for each variable.
#[derive(Debug, Drop)]
pub struct Line {
    numbers: Vec<Frac>,
}

impl Model for Line {
    ghost use Rattle.std.specs.Prelude.{List};
    ghost use Rattle.frac128.specs.Fractions.{Fraction};

    ghost Value = { List Fraction };

    ghost view = { λ l. l.numbers.items };
}

impl Line {
    /// The line of a vector.
    pub fn new(numbers: Vec<Frac>) -> Line
        ensures { result ≡ numbers.items }
    {
        Line { numbers }
    }

    /// The numbers, by variable.
    #[inline]
    pub fn as_slice(&self) -> &[Frac]
        ensures { result.now ≡ self.now }
    {
        self.numbers.as_slice()
    }

    /// The number of a variable.
    #[inline]
    pub fn at(&self, var: usize) -> Frac
        requires { var < length self.now }
        ensures { result ≡ at self.now var }
    {
        self.numbers[var]
    }

    /// Overwrites the number of a variable.
    #[inline]
    pub fn set(&mut self, var: usize, number: Frac)
        requires { var < length self.old }
        ensures { self.new ≡ slice_set self.old var number }
    {
        self.numbers[var] = number;
    }
}
