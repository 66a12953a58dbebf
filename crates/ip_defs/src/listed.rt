//! Lists that contracts see as plain lists, and the list types of programs.

ghost use Rattle.std.specs.Prelude.{◌≡◌, ◌<◌, ◌++◌, ◌∷◌, [], length, OnOk, OnErr, slice_set};

use crate::{Column, Row};
use std::alloc::AllocError;
use std::marker::Model;

/// A growable list that contracts see as the list of its elements, without its capacity.
#[derive(Debug, Drop)]
pub struct Listed<T> {
    items: Vec<T>,
}

impl<T> Model for Listed<T> {
    ghost use Rattle.std.specs.Prelude.{List};
    ghost use Rattle.std.specs.Coded.{coded_list};

    ghost Value = { List T };

    ghost coded = { coded_list T.code };

    ghost view = { λ l. l.items.items };
}

impl<T> Listed<T> {
    /// Makes a list of a vector's elements. Allocates nothing.
    pub fn from_vec(items: Vec<T>) -> Listed<T>
        ensures { result ≡ items.items }
    {
        Listed { items }
    }

    /// Returns the vector of the elements. Allocates nothing.
    pub fn into_vec(self) -> Vec<T>
        ensures { result.items ≡ self }
    {
        let Listed { items } = self;
        items
    }

    /// The elements, in order.
    pub fn as_slice(&self) -> &[T]
        ensures { result.now ≡ self.now }
    {
        self.items.as_slice()
    }

    /// Appends an element. If there is no memory for it, the list is unchanged.
    pub fn push(&mut self, item: T) -> Result<(), AllocError>
    where
        T: Drop,
        ensures ok { OnOk result (self.new ≡ self.old ++ item ∷ []) }
        ensures err { OnErr result (self.new ≡ self.old) }
    {
        self.items.push(item)?;
        Ok(())
    }
}

impl<T: Drop> Listed<T> {
    /// Replaces the element at an index of the list.
    pub fn set(&mut self, at: usize, item: T)
        requires { at < length self.old }
        ensures { self.new ≡ slice_set self.old at item }
    {
        self.items[at] = item;
    }
}

/// A point: one integer for each column, in the order of the columns.
pub type Point = Listed<i64>;

/// The nonzero coefficients of a row: pairs of a column number and a coefficient, in units of the row.
pub type Coefs = Listed<(u32, i64)>;

/// The nonzero multipliers of a certificate: pairs of a row number and a multiplier.
pub type Multipliers = Listed<(u32, i64)>;

/// A box: for each column the pair of its lower and its upper bound, `(lo, hi)`.
pub type Area = Listed<(i64, i64)>;

/// The columns of a program; a column's number is its index.
pub type ColumnList = Listed<Column>;

/// The rows of a program; a row's number is its index.
pub type RowList = Listed<Row>;
