//! What is proposed for a node, and the checks that decide. A proposal that fails its check says nothing of the node.
ghost use Rattle.std.specs.Prelude.{◌≡◌, ℕ, IfOk, IfSome, length};
ghost use Rattle.ip_defs.specs.Boxes.{IsOpen};
ghost use Rattle.ip_defs.specs.Limits.{IsArea, IsWithinLimits};
ghost use Rattle.leaf_cert.specs.Scratches.{FitsScratch, column_count_of};
ghost use Rattle.node_bounds.specs.Areas.{IsSearchArea};
ghost use Rattle.node_bounds.specs.Nodes.{IsEnd};
ghost use Rattle.node_bounds.specs.Workspaces.{FitsWorkspace};
ghost use Rattle.node_bounds.specs.Internal.Relaxed.{IsBounded, IsRelaxedNode, stops_by};

use crate::leaves::is_closed;
use crate::relaxations::{Relaxed, bounded};
use crate::tasks::Task;
use crate::workspaces::Workspace;
use dual_proposals::{DualTableau, Proposal, Proposed, propose};
use ip_defs::{Area, Cert, Memory};
use ip_model::IntModel;
use leaf_cert::{Scratch, cert_ok, leaf_bound};
use simplex_exact::Fracs;
use slackness::optimum;
use std::alloc::Global;

/// What proposes the answers of linear programs. Nothing is promised of a proposal: what is said of a node is right whatever is proposed,
/// since a check decides. A poor proposer costs time alone.
pub trait Proposer {
    /// What is proposed for the box of a task. It may take at most `task.pivots` steps.
    fn propose(&mut self, alloc: Global, task: &Task) -> Result<Proposed, Memory>;
}

impl Proposer for DualTableau {
    fn propose(&mut self, alloc: Global, task: &Task) -> Result<Proposed, Memory> {
        let answer = propose(alloc, self, task.model, task.area, task.pivots, task.cut_at)?;
        Ok(answer.proposed)
    }
}

/// What is proposed for a node. Without steps nothing is.
pub fn proposal<P: Proposer>(
    alloc: Global,
    task: &Task,
    proposer: &mut P,
) -> Result<Proposed, Memory> {
    if task.pivots == 0 {
        Ok(Proposed::GaveUp)
    } else {
        proposer.propose(alloc, task)
    }
}

/// A proposed certificate, where it closes a box.
fn closing(task: &Task, cert: Cert, scratch: &mut Scratch) -> Option<Cert>
    requires area { IsArea (length task.now.model.now.columns) task.now.area.now }
    requires room { FitsScratch task.now.model.now scratch.old }
    ensures closed { IfSome result (IsEnd task.now.model.now task.now.area.now task.now.cut_at) }
    ensures room { column_count_of scratch.new ≡ column_count_of scratch.old }
{
    let rows = task.model.parts().rows.as_slice().len() as u32;
    if !cert_ok(&cert, rows) {
        return None;
    }
    let bound = leaf_bound(task.model, &cert, task.area, scratch);
    if is_closed(task.cut_at, bound) {
        Some(cert)
    } else {
        None
    }
}

/// The point of a proposal, where it is right: one of the relaxation, whose cost is just what the certificate bounds by.
fn checked(
    alloc: Global,
    task: &Task,
    proposal: &Proposal,
    numbers: &mut [i128],
) -> Result<Option<Fracs>, Memory>
    requires area { IsArea (length task.now.model.now.columns) task.now.area.now }
    requires numbers { length numbers.old ≡ length task.now.model.now.columns }
    ensures { IfOk result (λ o. IfSome o (λ x. IsBounded task.now.model.now task.now.area.now x proposal.now.cert)) }
{
    optimum(alloc, task.model, task.area, proposal, numbers)
}

/// What a proposal says of a node, where its check accepts it: a point by complementary slackness, a certificate by its bound. Nothing is
/// known of the proposal before.
pub fn accepted(
    alloc: Global,
    task: &Task,
    proposed: Proposed,
    work: &mut Workspace,
) -> Result<Option<Relaxed>, Memory>
    requires limits { IsWithinLimits task.now.model.now }
    requires area { IsSearchArea task.now.model.now task.now.area.now }
    requires open { IsOpen task.now.area.now }
    requires room { FitsWorkspace task.now.model.now work.old }
    ensures relaxed { IfOk result (λ o. IfSome o (λ r. (pivots : ℕ)
        → IsRelaxedNode task.now.model.now pivots task.now.area.now task.now.cut_at r)) }
    ensures answered { IfOk result (λ o. IfSome o (λ r. stops_by r ≡ 0)) }
    ensures room { FitsWorkspace task.now.model.now work.new }
{
    match proposed {
        Proposed::Best(proposal) => {
            let numbers = work.numbers.as_mut_slice();
            match checked(alloc, task, &proposal, numbers)? {
                Some(point) => Ok(Some(bounded(alloc, task, point, proposal.cert, work)?)),
                None => Ok(None),
            }
        }
        Proposed::Cut(cert) | Proposed::Empty(cert) => {
            match closing(task, cert, &mut work.scratch) {
                Some(cert) => Ok(Some(Relaxed::Closed(cert))),
                None => Ok(None),
            }
        }
        Proposed::GaveUp => Ok(None),
    }
}
