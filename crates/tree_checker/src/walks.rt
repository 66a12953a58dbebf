//! The walk through a proof part by part: the claimed point, the first misfit of the tree, and the least bound of its leaves.
ghost use Rattle.std.specs.Prelude.{◌≡◌, List, [], length, None, Some};
ghost use Rattle.tree_checker.specs.Internal.Descents.{IsDescent};
ghost use Rattle.tree_checker.specs.Internal.Walks.{grown, next_node, taken, misfitting, split_taken, whole_taken, leaf_taken, walk_of};
ghost use Rattle.tree_checker.specs.Internal.Workspaces.{FitsWorkspace};

use crate::descents::Descent;
use crate::stocks::Stock;
use crate::workspaces::Workspace;
use ip_defs::Bound;
use ip_model::IntModel;
use proof_tree::{Shape, ShapeWhat, lesser};
use tree_format::Token;

/// The most nodes of a tree.
const MOST_NODES: u32 = 1_000_000;

/// The most coordinates, and the most multipliers that are kept.
const ROOM: usize = 4096;

/// The number of the next node.
fn after_node(node: u32) -> u32
    ensures { result ≡ next_node node }
{
    if node < MOST_NODES { node + 1 } else { node }
}

/// Appends an element where there is room for it.
fn grow<T: Drop>(list: &mut Stock<T>, item: T)
    ensures { list.new ≡ grown list.old item }
{
    if list.as_slice().len() < ROOM {
        list.push(item);
    }
}

/// How far a proof is walked through.
#[derive(Drop)]
pub(crate) struct Walk {
    /// The coordinates of the claimed point so far.
    pub(crate) point: Stock<i64>,
    /// The divisor of the certificate that is being read.
    pub(crate) q: i64,
    /// How many multipliers it has.
    pub(crate) count: u32,
    /// Its multipliers so far.
    pub(crate) y: Stock<(u32, i64)>,
    /// The box of the node that comes next, or is being read.
    pub(crate) descent: Descent,
    /// The number of that node.
    pub(crate) node: u32,
    /// The first misfit of a node. After it the walk stands still.
    pub(crate) misfit: Option<Shape>,
    /// The least bound of the leaves so far.
    pub(crate) bound: Bound,
}

impl Walk {
    /// Keeps a misfit of the node that is being read.
    fn keep_misfit(&mut self, what: ShapeWhat)
        ensures { self.new ≡ misfitting self.old what }
    {
        self.misfit = Some(Shape {
            node: self.node,
            what,
        });
    }

    /// Takes a split.
    fn take_split(&mut self, columns: usize, col: u32, at: i64)
        requires sound { IsDescent columns self.old.descent }
        ensures taken { self.new ≡ split_taken columns self.old col at }
        ensures sound { IsDescent columns self.new.descent }
    {
        if self.descent.can_enter(columns, col, at) {
            self.descent.enter(columns, col, at);
            self.node = after_node(self.node);
        } else {
            self.keep_misfit(ShapeWhat::ColumnNumber);
        }
    }

    /// Goes on after a leaf of some bound.
    fn leave_leaf(&mut self, columns: usize, bound: Bound)
        requires sound { IsDescent columns self.old.descent }
        ensures taken { self.new ≡ leaf_taken self.old (Some bound) }
        ensures sound { IsDescent columns self.new.descent }
    {
        self.bound = lesser(self.bound, bound);
        self.node = after_node(self.node);
        self.descent.settle(columns);
        self.y.clear();
        self.q = 0;
        self.count = 0;
    }

    /// Takes the end of a leaf, where its certificate is whole.
    fn take_whole(&mut self, model: &IntModel, workspace: &mut Workspace)
        requires sound { IsDescent (length model.now.columns) self.old.descent }
        requires fits { FitsWorkspace model.now workspace.old }
        ensures taken { self.new ≡ whole_taken model.now self.old }
        ensures sound { IsDescent (length model.now.columns) self.new.descent }
        ensures fits { FitsWorkspace model.now workspace.new }
    {
        if self.y.as_slice().len() < self.count as usize {
            return;
        }
        let Workspace { blanks, scratch } = workspace;
        match blanks.bound(
            model,
            self.q,
            self.y.as_slice(),
            &self.descent.area,
            scratch,
        ) {
            Some(bound) => self.leave_leaf(model.parts().columns.as_slice().len(), bound),
            None => self.keep_misfit(ShapeWhat::RowNumber),
        }
    }

    /// Takes the number of multipliers.
    fn take_count(&mut self, model: &IntModel, workspace: &mut Workspace, count: u32)
        requires sound { IsDescent (length model.now.columns) self.old.descent }
        requires fits { FitsWorkspace model.now workspace.old }
        ensures taken { self.new ≡ whole_taken model.now (walk_of self.old.point self.old.q count [] self.old.descent self.old.node
            self.old.misfit self.old.bound) }
        ensures sound { IsDescent (length model.now.columns) self.new.descent }
        ensures fits { FitsWorkspace model.now workspace.new }
    {
        self.count = count;
        self.y.clear();
        self.take_whole(model, workspace);
    }

    /// Takes a multiplier.
    fn take_multiplier(
        &mut self,
        model: &IntModel,
        workspace: &mut Workspace,
        row: u32,
        multiplier: i64,
    )
        requires sound { IsDescent (length model.now.columns) self.old.descent }
        requires fits { FitsWorkspace model.now workspace.old }
        ensures taken { self.new ≡ whole_taken model.now (walk_of self.old.point self.old.q self.old.count
            (grown self.old.y (row, multiplier)) self.old.descent self.old.node self.old.misfit self.old.bound) }
        ensures sound { IsDescent (length model.now.columns) self.new.descent }
        ensures fits { FitsWorkspace model.now workspace.new }
    {
        grow(&mut self.y, (row, multiplier));
        self.take_whole(model, workspace);
    }

    /// Takes the next part of the proof.
    pub(crate) fn take(&mut self, model: &IntModel, workspace: &mut Workspace, part: Token)
        requires sound { IsDescent (length model.now.columns) self.old.descent }
        requires fits { FitsWorkspace model.now workspace.old }
        ensures taken { self.new ≡ taken model.now self.old part }
        ensures sound { IsDescent (length model.now.columns) self.new.descent }
        ensures fits { FitsWorkspace model.now workspace.new }
    {
        if self.misfit.is_some() {
            return;
        }
        match part {
            Token::Nothing | Token::Claimed => {}
            Token::Coordinate(coordinate) => grow(&mut self.point, coordinate),
            Token::SplitAt { col, at } => {
                self.take_split(model.parts().columns.as_slice().len(), col, at);
            }
            Token::LeafQ(q) => self.q = q,
            Token::Parts(count) => self.take_count(model, workspace, count),
            Token::Part { row, multiplier } => {
                self.take_multiplier(model, workspace, row, multiplier);
            }
        }
    }
}
