//! The tableau, with its pivots, flips and numbers.
ghost use Rattle.std.specs.Prelude.{◌≡◌, ◌≢◌, ◌<◌, ◌+◌, ◌↔◌, IsTrue, IfOk, List, length, OnOk, OnErr, Ok, Err, None, pos, ℤ};
ghost use Rattle.ip_defs.specs.declared.programs.Parts.{Parts};
ghost use Rattle.tableau.specs.declared.positions.Rest.TheVariants.{Basic};
ghost use Rattle.tableau.specs.Tables.{entry as entry_at, basic_at, position_at, variable_at, table_of};
ghost use Rattle.tableau.specs.Tables.{CanRest, IsTable, AreSpareLines};
ghost use Rattle.tableau.specs.Numbers.{value as value_of_row, price as price_of, ratio as ratio_of, side_at};
ghost use Rattle.tableau.specs.Pivots.{after_pivot, after_flip};
ghost use Rattle.tableau.specs.Nodes.{StandsFor, HasItsPoints};
ghost use Rattle.tableau.specs.Meanings.{value_number, price_number, ratio_number};
ghost use Rattle.frac128.specs.Values.{value_of};

use crate::lines::Line;
use crate::numbers::{column_price, row_value};
use crate::pivots::pivot_rows;
use crate::variables::present_side;
use crate::{Rest, Steps, Variable};
use frac128::{Frac, Wide, div, sub};
use std::marker::Model;
use std::sync::ledger::Ledger;

/// A tableau of a node. Pivots and numbers take no memory: spare lines for the new rows are kept from the start.
#[derive(Debug, Drop)]
pub struct Tableau {
    rows: Vec<Line>,
    basics: Vec<u32>,
    positions: Vec<Rest>,
    variables: Vec<Variable>,
    spare: Vec<Line>,
    quotients: Line,
}

impl Model for Tableau {
    ghost use Rattle.std.specs.Prelude.{length};
    ghost use Rattle.tableau.specs.Tables.{Table, table_of, IsTable, AreSpareLines};

    ghost Value = { Table };

    ghost view = { λ t. table_of t.rows.items t.basics.items t.positions.items t.variables.items };

    ghost invariant = { λ t. IsTable (table_of t.rows.items t.basics.items t.positions.items t.variables.items)
        × AreSpareLines (length t.rows.items) (length t.variables.items) t.spare.items t.quotients };
}

impl Tableau {
    /// The tableau of lists that fit together.
    pub(crate) fn new(
        rows: Vec<Line>,
        spare: Vec<Line>,
        quotients: Line,
        basics: Vec<u32>,
        positions: Vec<Rest>,
        variables: Vec<Variable>,
    ) -> Tableau
        requires table { IsTable (table_of rows.items basics.items positions.items variables.items) }
        requires spare { AreSpareLines (length rows.items) (length variables.items) spare.items quotients }
        ensures { result ≡ table_of rows.items basics.items positions.items variables.items }
    {
        Tableau {
            rows,
            spare,
            quotients,
            basics,
            positions,
            variables,
        }
    }

    /// Whether a row is one of its rows and a variable one of its variables. The lists of a tableau fit together.
    pub fn has(&self, row: u32, var: u32) -> bool
        ensures places { IsTrue result ↔ (row < length self.now.rows × var < length self.now.variables) }
        ensures table { IsTable self.now }
    {
        (row as usize) < self.rows.len() && (var as usize) < self.variables.len()
    }

    /// Whether a nonbasic variable can have this position: at a side that it has, or at 0 where it has no side.
    pub fn can_rest(&self, var: u32, rest: Rest) -> bool
        requires { var < length self.now.variables }
        ensures { IsTrue result ↔ CanRest (variable_at self.now.variables var) rest }
    {
        self.variables[var as usize].can_rest(rest)
    }

    /// A variable: its sides and its cost.
    pub fn variable(&self, var: u32) -> Variable
        requires { var < length self.now.variables }
        ensures { result ≡ variable_at self.now.variables var }
    {
        self.variables[var as usize]
    }

    /// The entry of a row and a variable.
    pub fn entry(&self, row: u32, var: u32) -> Frac
        requires row { row < length self.now.rows }
        requires variable { var < length self.now.variables }
        ensures { result ≡ entry_at self.now.rows row var }
    {
        let line = &self.rows[row as usize];
        line.at(var as usize)
    }

    /// The basic variable of a row.
    pub fn basic(&self, row: u32) -> u32
        requires { row < length self.now.rows }
        ensures basic { result ≡ basic_at self.now.basics row }
        ensures variable { result < length self.now.variables }
    {
        self.basics[row as usize]
    }

    /// The position of a variable.
    pub fn rest(&self, var: u32) -> Rest
        requires { var < length self.now.variables }
        ensures { result ≡ position_at self.now.positions var }
    {
        self.positions[var as usize]
    }

    /// A pivot, with its exact answer.
    fn exchange(&mut self, row: u32, var: u32, leaving: Rest) -> Result<(), Wide>
        requires row { row < length self.old.rows }
        requires variable { var < length self.old.variables }
        requires pivot { (entry_at self.old.rows row var).num ≢ pos 0 }
        ensures table { IsTable self.old }
        ensures pivoted { OnOk result (after_pivot self.old row var leaving ≡ Ok self.new) }
        ensures wide { OnErr result (after_pivot self.old row var leaving ≡ Err (record {})) }
        ensures kept { OnErr result (self.new ≡ self.old) }
    {
        let pivoted = pivot_rows(
            self.rows.as_mut_slice(),
            row as usize,
            var as usize,
            self.spare.as_mut_slice(),
            &mut self.quotients,
        );
        match pivoted {
            Ok(()) => {}
            Err(Wide) => return Err(Wide),
        }
        let left = self.basics[row as usize];
        self.positions[left as usize] = leaving;
        self.positions[var as usize] = Rest::Basic;
        self.basics[row as usize] = var;
        Ok(())
    }

    /// A pivot: the variable becomes basic in the row, and the row's old basic variable leaves to a side. Each entry of the row is
    /// divided by the pivot, and each entry of another row loses its pivot-column entry times the new pivot-row entry. `Wide` comes
    /// exactly where one of these steps is wide; the tableau is then unchanged. It counts one step in each case.
    ///
    /// A tableau that stands for a node does so afterwards. The simplex method for variables with sides is Dantzig's (Linear Programming
    /// and Extensions, chapter 18).
    pub fn pivot<L: Ledger>(
        &mut self,
        row: u32,
        var: u32,
        leaving: Rest,
        steps: &mut Steps<L>,
    ) -> Result<(), Wide>
        requires row { row < length self.old.rows }
        requires variable { var < length self.old.variables }
        requires pivot { (entry_at self.old.rows row var).num ≢ pos 0 }
        requires enters { position_at self.old.positions var ≢ Basic }
        requires leaves { CanRest (variable_at self.old.variables (basic_at self.old.basics row)) leaving }
        ensures pivoted { OnOk result (after_pivot self.old row var leaving ≡ Ok self.new) }
        ensures wide { OnErr result (after_pivot self.old row var leaving ≡ Err (record {})) }
        ensures kept { OnErr result (self.new ≡ self.old) }
        ensures stands { (m : Parts) (b : List (ℤ × ℤ)) → StandsFor m b self.old → StandsFor m b self.new }
        ensures points { (m : Parts) (b : List (ℤ × ℤ)) → StandsFor m b self.old → HasItsPoints m self.old → HasItsPoints m self.new }
        ensures steps { steps.new ≡ steps.old + 1 }
    {
        let pivoted = self.exchange(row, var, leaving);
        steps.tick();
        pivoted
    }

    /// A flip: a nonbasic variable with two sides moves from the one to the other. It counts one step.
    pub fn flip<L: Ledger>(&mut self, var: u32, steps: &mut Steps<L>)
        requires variable { var < length self.old.variables }
        requires position { CanRest (variable_at self.old.variables var) (position_at self.old.positions var) }
        requires low { (variable_at self.old.variables var).low ≢ None }
        requires high { (variable_at self.old.variables var).high ≢ None }
        ensures flipped { self.new ≡ after_flip self.old var }
        ensures stands { (m : Parts) (b : List (ℤ × ℤ)) → StandsFor m b self.old → StandsFor m b self.new }
        ensures points { (m : Parts) → HasItsPoints m self.old → HasItsPoints m self.new }
        ensures steps { steps.new ≡ steps.old + 1 }
    {
        steps.tick();
        self.move_across(var);
    }

    /// A flip, with its exact answer.
    fn move_across(&mut self, var: u32)
        requires { var < length self.old.variables }
        ensures flipped { self.new ≡ after_flip self.old var }
        ensures size { length self.old.positions ≡ length self.old.variables }
    {
        self.positions[var as usize] = match self.positions[var as usize] {
            Rest::Basic => Rest::Basic,
            Rest::Low => Rest::High,
            Rest::High => Rest::Low,
            Rest::Zero => Rest::Zero,
        };
    }

    /// The value of a row's basic variable: 0 less each entry times the value of its nonbasic variable, over the nonbasic variables by
    /// number. `Wide` comes exactly where one of these steps is wide.
    pub fn value(&self, row: u32) -> Result<Frac, Wide>
        requires { row < length self.now.rows }
        ensures exact { result ≡ value_of_row self.now row }
        ensures number { IfOk result (λ x. value_of x ≡ value_number self.now row) }
    {
        let line = &self.rows[row as usize];
        row_value(
            line.as_slice(),
            self.positions.as_slice(),
            self.variables.as_slice(),
        )
    }

    /// The reduced cost of a variable, also of a slack, whose reduced cost is the dual price of its row: its cost less each entry times
    /// the cost of the row's basic variable, over the rows by number. `Wide` comes exactly where one of these steps is wide.
    pub fn price(&self, var: u32) -> Result<Frac, Wide>
        requires { var < length self.now.variables }
        ensures exact { result ≡ price_of self.now var }
        ensures number { IfOk result (λ x. value_of x ≡ price_number self.now var) }
    {
        column_price(
            self.rows.as_slice(),
            self.basics.as_slice(),
            self.variables.as_slice(),
            var as usize,
        )
    }

    /// How far a nonbasic variable can move until the row's basic variable meets one of its sides: the row's value less the side,
    /// divided by the entry. `Wide` comes exactly where one of these steps is wide.
    pub fn ratio(&self, row: u32, var: u32, side: Rest) -> Result<Frac, Wide>
        requires row { row < length self.now.rows }
        requires variable { var < length self.now.variables }
        requires free { position_at self.now.positions var ≢ Basic }
        requires pivot { (entry_at self.now.rows row var).num ≢ pos 0 }
        requires side { side_at (variable_at self.now.variables (basic_at self.now.basics row)) side ≢ None }
        ensures exact { result ≡ ratio_of self.now row var side }
        ensures number { IfOk result (λ x. value_of x ≡ ratio_number self.now row var side) }
    {
        let value = match self.value(row) {
            Ok(value) => value,
            Err(Wide) => return Err(Wide),
        };
        let basic = self.basics[row as usize];
        let end = present_side(self.variables[basic as usize].side(side));
        match sub(value, Frac::from_whole(end)) {
            Ok(gap) => div(gap, self.entry(row, var)),
            Err(Wide) => Err(Wide),
        }
    }
}
