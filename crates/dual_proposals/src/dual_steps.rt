//! The dual simplex: steps until each basic variable lies within its sides, or the bound is high enough, or no point is left.
ghost use Rattle.std.specs.Prelude.{◌≤◌};

use crate::entering::Candidate;
use crate::leaving::{Choice, Leaving};
use crate::tableaus::DualTableau;

/// The number of steps in turn that do not raise the bound after which ties are broken by a perturbation.
const FLAT_STEPS: u32 = 30;

/// The number of such steps, besides two for each row, after which both choices are by the least number, so that no basis comes again.
const MANY_FLAT_STEPS: u32 = 1000;

/// How a run of steps ended.
#[derive(Clone, Copy)]
pub enum End {
    /// Each variable lies within its sides.
    Best,
    /// The bound is at least the cost to cut at.
    Cut,
    /// The row of a basic variable shows that no point is left.
    Empty(Leaving),
    /// The limit of steps is reached.
    OutOfSteps,
    /// A number does not fit.
    TooWide,
}

/// What is to be done with a tableau.
enum Next {
    End(End),
    Exchange(Leaving, Candidate),
}

/// How a run ended, and how many steps it took.
#[derive(Clone, Copy)]
pub struct Run {
    pub end: End,
    pub steps: u32,
}

/// Whether value / denominator, rounded up, is at least a number.
fn reaches(value: i128, denominator: i128, number: i128) -> bool {
    if denominator <= 0 {
        return false;
    }
    match number.wrapping_sub(1).checked_mul(denominator) {
        Some(product) => value > product,
        None => false,
    }
}

impl DualTableau {
    /// Whether the bound is at least the cost to cut at.
    fn is_cut(&self, cut_at: Option<i128>) -> bool {
        match cut_at {
            Some(cost) => reaches(
                self.costs.value,
                self.costs.denominator,
                cost.wrapping_sub(self.constant),
            ),
            None => false,
        }
    }

    /// What is to be done next.
    fn next(&self, cut_at: Option<i128>, by_least_number: bool) -> Next {
        if self.is_cut(cut_at) {
            return Next::End(End::Cut);
        }
        match self.leaving(by_least_number) {
            Choice::AllWithin => Next::End(End::Best),
            Choice::TooWide => Next::End(End::TooWide),
            Choice::Leaves(leaving) => match self.entering(&leaving, by_least_number) {
                Some(entering) => Next::Exchange(leaving, entering),
                None => Next::End(End::Empty(leaving)),
            },
        }
    }

    /// Makes one step, and returns how many steps in turn did not raise the bound. None where a number does not fit.
    fn step(&mut self, leaving: &Leaving, entering: &Candidate, flat: u32) -> Option<u32> {
        if !self.exchange(leaving, entering) {
            return None;
        }
        if entering.reduced_cost != 0 {
            return Some(0);
        }
        let flat = flat.saturating_add(1);
        if flat > FLAT_STEPS {
            self.ties.turn_on(self.nonbasic.as_slice());
        }
        Some(flat)
    }

    /// Steps until there is an end, at most `limit` of them.
    fn run_steps(&mut self, limit: u32, cut_at: Option<i128>) -> Run
        ensures { result.steps ≤ limit }
    {
        let many = MANY_FLAT_STEPS.saturating_add(2u32.saturating_mul(self.row_count()));
        let mut flat: u32 = 0;
        for steps in 0..limit {
            match self.next(cut_at, flat > many) {
                Next::End(end) => return Run { end, steps },
                Next::Exchange(leaving, entering) => match self.step(&leaving, &entering, flat) {
                    Some(count) => flat = count,
                    None => {
                        return Run {
                            end: End::TooWide,
                            steps,
                        };
                    }
                },
            }
        }
        let end = match self.next(cut_at, false) {
            Next::End(end) => end,
            Next::Exchange(_, _) => End::OutOfSteps,
        };
        Run { end, steps: limit }
    }

    /// The number of rows.
    fn row_count(&self) -> u32 {
        u32::try_from(self.basic.len()).unwrap_or(u32::MAX)
    }

    /// Runs the dual simplex, at most `limit` steps. The perturbation of the ties is dropped at the end.
    pub(crate) fn run(&mut self, limit: u32, cut_at: Option<i128>) -> Run
        ensures { result.steps ≤ limit }
    {
        let run = self.run_steps(limit, cut_at);
        self.ties.turn_off();
        match run.end {
            End::TooWide => self.is_spent = true,
            _ => {}
        }
        run
    }
}
