//! Verdicts on proofs from the pieces of their files, without building a tree.
ghost use Rattle.std.specs.Prelude.{◌≡◌, ◌++◌, ◌∷◌, ℕ, List, [], Some, Err, IfOk, IfErr, length};
ghost use Rattle.std.specs.Option.{option_or};
ghost use Rattle.ip_defs.specs.declared.programs.Parts.{Parts};
ghost use Rattle.proof_tree.specs.Verdicts.{claim_misfit};
ghost use Rattle.tree_format.specs.Internal.Stretches.{claim_of as claim_by};
ghost use Rattle.tree_format.specs.Grammar.{fault_so_far};
ghost use Rattle.tree_format.specs.Internal.Remaining.{fault_of};
ghost use Rattle.tree_checker.specs.Internal.Descents.{IsDescent};
ghost use Rattle.tree_checker.specs.Internal.Streaming.{HasFailed, IsStreaming};
ghost use Rattle.tree_checker.specs.Internal.Walks.{start_of};
ghost use Rattle.tree_checker.specs.Internal.Workspaces.{FitsWorkspace};
ghost use Rattle.tree_checker.specs.Streams.{HasStreamed, IsStreamAnswer};

use crate::cuts::Cuts;
use crate::descents::Descent;
use crate::stocks::Stock;
use crate::verdicts::judge;
use crate::walks::Walk;
use crate::workspaces::{Workspace, workspace_for};
use crate::{Bound, Claim, Verdict};
use ip_defs::{Memory, Point};
use ip_model::{IntModel, box_of};
use proof_tree::{Shape, ShapeWhat};
use std::alloc::Global;
use std::marker::Model;
use tree_format::{Token, TreeError, TreeReader, tree_reader};

/// Why a file has no verdict.
#[derive(Clone, Copy, Debug, PartialEq, Eq)]
pub enum StreamError {
    /// The bytes are no tree file: their first fault.
    Tree(TreeError),
    /// The proof does not fit the model: its first misfit.
    Shape(Shape),
}

/// How far a file is read and its proof walked through.
#[derive(Drop)]
pub(crate) struct Streaming {
    pub(crate) reader: TreeReader,
    pub(crate) walk: Walk,
    /// The fault that came.
    pub(crate) fault: Option<TreeError>,
}

impl Streaming {
    /// Takes the next byte.
    fn take(
        &mut self,
        model: &IntModel,
        workspace: &mut Workspace,
        byte: u8,
    ) -> Result<(), TreeError>
        requires sound { IsDescent (length model.now.columns) self.old.walk.descent }
        requires fits { FitsWorkspace model.now workspace.old }
        ensures sound { IsDescent (length model.now.columns) self.new.walk.descent }
        ensures fits { FitsWorkspace model.now workspace.new }
        ensures read { (bytes : List ℕ) → IsStreaming model.now self.old bytes → IsStreaming model.now self.new (bytes ++ byte ∷ []) }
        ensures fault { self.new.fault ≡ fault_of result }
        ensures failed { (e : TreeError) → self.old.fault ≡ Some e → result ≡ Err e }
    {
        if let Some(fault) = self.fault {
            return Err(fault);
        }
        match self.reader.step(byte) {
            Ok(part) => {
                self.walk.take(model, workspace, part);
                Ok(())
            }
            Err(fault) => {
                self.fault = Some(fault);
                Err(fault)
            }
        }
    }
}

/// A check of a tree file that comes in pieces, for a model.
#[derive(Drop)]
pub struct StreamCheck<'a> {
    model: &'a IntModel,
    workspace: Workspace,
    streaming: Streaming,
}

impl<'a> Model for StreamCheck<'a> {
    ghost use Rattle.std.specs.Prelude.{length};
    ghost use Rattle.ip_defs.specs.declared.programs.Parts.{Parts};
    ghost use Rattle.tree_checker.specs.declared.streams.Streaming.{Streaming};
    ghost use Rattle.tree_checker.specs.Internal.Descents.{IsDescent};
    ghost use Rattle.tree_checker.specs.Internal.Workspaces.{FitsWorkspace};

    ghost Value = { Parts × Streaming };

    ghost view = { λ s. (s.model.now, s.streaming) };

    ghost invariant = { λ s. IsDescent (length s.model.now.columns) s.streaming.walk.descent × FitsWorkspace s.model.now s.workspace };
}

/// The walk before the first part.
fn start(alloc: Global, model: &IntModel) -> Result<Walk, Memory>
    ensures start { IfOk result (λ w. w ≡ start_of model.now) }
    ensures sound { IfOk result (λ w. IsDescent (length model.now.columns) w.descent) }
{
    Ok(Walk {
        point: Stock::new(alloc)?,
        q: 0,
        count: 0,
        y: Stock::new(alloc)?,
        descent: Descent {
            area: box_of(alloc, model)?,
            cuts: Cuts::new(alloc)?,
        },
        node: 0,
        misfit: None,
        bound: Bound::Infinite,
    })
}

/// The misfit of a claimed point of another length, or else that of a node.
fn misfit_of(claims_point: bool, walk: &Walk, columns: usize) -> Option<Shape>
    ensures { result ≡ option_or (claim_misfit columns (claim_by claims_point walk.now.point)) walk.now.misfit }
{
    if claims_point && walk.point.as_slice().len() != columns {
        Some(Shape {
            node: 0,
            what: ShapeWhat::PointLength,
        })
    } else {
        walk.misfit
    }
}

/// The claim of a point, where there is one.
fn claim_of(claims_point: bool, point: Stock<i64>) -> Claim
    ensures { result ≡ claim_by claims_point point }
{
    if claims_point {
        Claim::Best(Point::from_vec(point.into_vec()))
    } else {
        Claim::Empty
    }
}

/// Begins the check of a file, of which no byte is read. It takes all the memory of the check: for 800 cuts, a box, a point and the
/// certificate of a leaf; no later call takes any.
pub fn stream<'a>(alloc: Global, model: &'a IntModel) -> Result<StreamCheck<'a>, Memory>
    ensures { IfOk result (λ s. HasStreamed model.now s []) }
{
    Ok(StreamCheck {
        model,
        workspace: workspace_for(alloc, model)?,
        streaming: Streaming {
            reader: tree_reader(alloc)?,
            walk: start(alloc, model)?,
            fault: None,
        },
    })
}

impl<'a> StreamCheck<'a> {
    /// Takes the next byte.
    fn take(&mut self, byte: u8) -> Result<(), TreeError>
        ensures read { (m : Parts) (bytes : List ℕ) → HasStreamed m self.old bytes → HasStreamed m self.new (bytes ++ byte ∷ []) }
        ensures fault { self.new.1.fault ≡ fault_of result }
        ensures failed { (e : TreeError) → HasFailed self.old e → result ≡ Err e }
    {
        self.streaming.take(self.model, &mut self.workspace, byte)
    }

    /// Takes the next piece of the file, of any length. The error is the fault of the bytes so far that stands whatever follows; that
    /// the bytes end too early, and that the proof does not fit the model, `end` alone answers. After an error each later call answers
    /// that error. Takes no memory.
    pub fn feed(&mut self, piece: &[u8]) -> Result<(), TreeError>
        ensures read { (m : Parts) (bytes : List ℕ) → HasStreamed m self.old bytes → HasStreamed m self.new (bytes ++ piece.now) }
        ensures fault { (m : Parts) (bytes : List ℕ) → HasStreamed m self.old bytes → fault_of result ≡ fault_so_far (bytes ++ piece.now) }
        ensures fails { IfErr result (λ e. HasFailed self.new e) }
        ensures failed { (e : TreeError) → HasFailed self.old e → result ≡ Err e }
    {
        if let Some(fault) = self.streaming.fault {
            return Err(fault);
        }
        for byte in piece {
            match self.take(*byte) {
                Ok(()) => {}
                Err(fault) => return Err(fault),
            }
        }
        Ok(())
    }

    /// The answer to the file of which all pieces were taken: the first fault of its bytes, or else the first misfit of the proof that
    /// they spell, or else the verdict on that proof. Takes no memory.
    pub fn end(self) -> Result<Verdict, StreamError>
        ensures answer { (m : Parts) (bytes : List ℕ) → HasStreamed m self.entry bytes → IsStreamAnswer m bytes result }
        ensures failed { (e : TreeError) → HasFailed self.entry e → result ≡ Err (StreamError.Tree e) }
    {
        let StreamCheck {
            model,
            workspace: _,
            streaming,
        } = self;
        if let Some(fault) = streaming.fault {
            return Err(StreamError::Tree(fault));
        }
        match streaming.reader.close() {
            Ok(()) => {}
            Err(fault) => return Err(StreamError::Tree(fault)),
        }
        let claims_point = streaming.reader.claims_point();
        let walk = streaming.walk;
        let columns = model.parts().columns.as_slice().len();
        match misfit_of(claims_point, &walk, columns) {
            Some(shape) => Err(StreamError::Shape(shape)),
            None => {
                let bound = walk.bound;
                let claim = claim_of(claims_point, walk.point);
                Ok(judge(model, &claim, bound))
            }
        }
    }
}
