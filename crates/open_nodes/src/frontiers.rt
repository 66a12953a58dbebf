//! The open tree of a search: its nodes under their keys, and the order in which those that wait are taken.
ghost use Rattle.std.specs.Prelude.{ℕ, ◌≡◌, ◌^◌, ◌+◌, ◌<◌, ◌≤◌, ◌∷◌, IfNone, IfOk, IfSome, None, Some, OnOk, length};
ghost use Rattle.std.specs.Option.{ForSome};
ghost use Rattle.std.specs.Int.RustNames.{unsigned_abs};
ghost use Rattle.std.specs.List.Sorted.{IsPermutation};
ghost use Rattle.std.specs.BinaryHeap.{heap_capacity, heap_items, heap_len, HeapUnchanged, KeepsHeap, PopsGreatest};
ghost use Rattle.slab.specs.Slab.{ContainsKey, get, with_value};
ghost use Rattle.open_nodes.specs.declared.nodes.State.TheVariants as States;
ghost use Rattle.open_nodes.specs.Nodes.{box_along, half, Entry};
ghost use Rattle.open_nodes.specs.Frontiers.{sum_over, IsFrontier};
ghost use Rattle.open_nodes.specs.Frontiers.{entry_at, HasState, IsLeast, IsNew, NoneWaits, SameNodes, SetsState, SplitsNode, WaitsAt};
ghost use Rattle.open_nodes.specs.Internal.Forests.{IsFinished, IsSmallCut, new_node as new_node_of};
ghost use Rattle.open_nodes.specs.Internal.Orders.{rank_cmp};

use crate::Why;
use crate::nodes::{Cut, Edge, Node, Solved, State};
use ip_defs::{Area, Cert, Memory};
use ip_model::{cut_above, cut_below};
use slab::Slab;
use std::alloc::Global;
use std::cmp::Reverse;
use std::collections::BinaryHeap;
use std::mem;

/// The open tree of a search while it grows. No node leaves it, so keys rise in the order in which nodes are made.
#[derive(Drop)]
pub struct Frontier {
    pub(crate) nodes: Slab<Node>,
    /// Of each node that waits its bound, its depth and its key. The greatest is the next: that with the least bound, of these the
    /// deepest, and of these the one made last.
    pub(crate) order: BinaryHeap<Rank>,
    pub(crate) root: usize,
}

/// A node that was taken: its key, its depth, the bound that it waited with, and what it kept.
#[derive(Debug, Drop)]
pub struct Taken {
    pub key: usize,
    pub depth: u32,
    pub bound: i128,
    pub solved: Option<Solved>,
}

/// Of a node that waits its bound, its depth and its key.
type Rank = (Reverse<i128>, u32, usize);

/// Adds a rank for which memory was reserved.
fn add_rank(order: &mut BinaryHeap<Rank>, rank: Rank)
    requires { heap_len order.old < heap_capacity order.old }
    ensures added { IsPermutation (rank ∷ heap_items order.old) (heap_items order.new) }
    ensures heap { KeepsHeap rank_cmp (heap_items order.old) (heap_items order.new) }
    ensures len { heap_len order.new ≡ heap_len order.old + 1 }
    ensures capacity { heap_capacity order.old ≤ heap_capacity order.new }
{
    match order.push(rank) {
        Ok(()) => {}
        Err(_) => unreachable!(),
    }
}

/// Takes the greatest rank: that of the node which is next.
fn take_rank(order: &mut BinaryHeap<Rank>) -> Option<Rank>
    ensures least { IfSome result (λ r. PopsGreatest rank_cmp (heap_items order.old) r (heap_items order.new)) }
    ensures taken { IfSome result (λ r. IsPermutation (heap_items order.old) (r ∷ heap_items order.new)) }
    ensures none { IfNone result (heap_len order.old ≡ 0) }
    ensures unchanged { IfNone result (HeapUnchanged order.old order.new) }
{
    order.pop()
}

/// A node that waits with a bound, whose linear program was not solved.
fn new_node(edge: Option<Edge>, depth: u32, bound: i128) -> Node
    ensures { result ≡ new_node_of edge depth bound }
{
    Node {
        edge,
        depth,
        state: State::Waiting {
            bound,
            solved: None,
        },
    }
}

/// Gives the node at a key another state, and hands back the one that it had.
fn put_state(nodes: &mut Slab<Node>, key: usize, state: State) -> State
    requires { ContainsKey nodes.old key }
    ensures { IfSome (get nodes.old key) (λ n. (result ≡ n.state)
        × (nodes.new ≡ with_value nodes.old key (record { edge = n.edge; depth = n.depth; state = state }))) }
{
    mem::replace(&mut nodes[key].state, state)
}

/// Cuts a box. A column that the box does not have is left out.
fn cut_to(area: &mut Area, cut: Cut)
    requires { IsSmallCut cut }
    ensures { area.new ≡ half cut area.old }
{
    match cut {
        Cut::Below { col, at } => {
            let j = col as usize;
            if j < area.as_slice().len() {
                cut_below(area, j, at);
            }
        }
        Cut::Above { col, at } => {
            let j = col as usize;
            if j < area.as_slice().len() {
                cut_above(area, j, at);
            }
        }
    }
}

impl Frontier {
    /// An open tree of its root alone, which waits with a bound.
    pub fn new(alloc: Global, bound: i128) -> Result<Frontier, Memory>
        ensures frontier { IfOk result IsFrontier }
        ensures root { IfOk result (λ f. IsNew bound f f.root) }
    {
        let mut nodes = Slab::new(alloc);
        let root = nodes.insert(new_node(None, 0, bound))?;
        let mut order = BinaryHeap::new(alloc);
        order.push((Reverse(bound), 0, root))?;
        Ok(Frontier { nodes, order, root })
    }

    /// Takes the node with the least bound of those that wait: of those with the same bound the deepest, and of these the one made last.
    /// It hands over what the node kept. `None` says that no node waits. Nothing rests on which of the nodes with the least bound it is.
    pub fn next(&mut self) -> Option<Taken>
        requires frontier { IsFrontier self.old }
        ensures frontier { IsFrontier self.new }
        ensures waited { IfSome result (λ n. HasState self.old n.key (States.Waiting n.bound n.solved)) }
        ensures depth { IfSome result (λ n. (e : Entry) → entry_at self.old n.key ≡ Some e → length e.path ≡ n.depth) }
        ensures taken { IfSome result (λ n. SetsState self.old self.new n.key States.Taken) }
        ensures least { IfSome result (λ n. IsLeast self.old n.bound) }
        ensures none { IfNone result (NoneWaits self.old) }
        ensures unchanged { IfNone result (SameNodes self.old self.new) }
    {
        let key = match take_rank(&mut self.order) {
            Some(rank) => rank.2,
            None => return None,
        };
        let depth = self.nodes[key].depth;
        match put_state(&mut self.nodes, key, State::Taken) {
            State::Waiting { bound, solved } => Some(Taken {
                key,
                depth,
                bound,
                solved,
            }),
            _ => unreachable!(),
        }
    }

    /// How many nodes there are, whether they wait or not.
    pub fn len(&self) -> u32
        requires { sum_over (λ st. 1) self.now ≤ 1000000 }
        ensures { result ≡ sum_over (λ st. 1) self.now }
    {
        self.nodes.len() as u32
    }

    /// The least bound of the nodes that wait. `None` says that no node waits.
    pub fn next_bound(&self) -> Option<i128>
        requires frontier { IsFrontier self.now }
        ensures least { IfSome result (IsLeast self.now) }
        ensures waits { IfSome result (λ bound. (k : ℕ) × WaitsAt self.now k bound) }
        ensures none { IfNone result (NoneWaits self.now) }
    {
        match self.order.peek() {
            Some((bound, _, _)) => Some(bound.0),
            None => None,
        }
    }

    /// Cuts the box of a model down to that of the node at a key, by the cuts above the node. Allocates nothing.
    pub fn cut_to_node(&self, key: usize, area: &mut Area)
        requires frontier { IsFrontier self.now }
        ensures { (e : Entry) → entry_at self.now key ≡ Some e → area.new ≡ box_along e.path area.old }
    {
        if let Some(node) = self.nodes.get(key) {
            if let Some(edge) = node.edge {
                self.cut_to_node(edge.parent, area);
                cut_to(area, edge.cut);
            }
        }
    }

    /// Splits a node that was taken at a number of a column, for a reason. Both children wait with a bound. It hands back their keys: that
    /// of the half up to the number, which is made first, and that of the other half. If there is no memory, nothing has changed.
    pub fn split(
        &mut self,
        key: usize,
        col: u32,
        at: i64,
        why: Why,
        bound: i128,
    ) -> Result<(usize, usize), Memory>
        requires frontier { IsFrontier self.old }
        requires taken { HasState self.old key States.Taken }
        requires small { unsigned_abs at ≤ 2 ^ 24 }
        requires depth { ForSome (entry_at self.old key) (λ e. length e.path + 1 < 2 ^ 32) }
        ensures frontier { IsFrontier self.new }
        ensures split { IfOk result (λ keys. SplitsNode self.old self.new key col at why bound keys.0 keys.1) }
    {
        self.nodes.reserve(2)?;
        self.order.reserve(2)?;
        let depth = self.nodes[key].depth + 1;
        let below = Edge {
            parent: key,
            cut: Cut::Below { col, at },
        };
        let above = Edge {
            parent: key,
            cut: Cut::Above { col, at },
        };
        let left = self
            .nodes
            .insert_reserved(new_node(Some(below), depth, bound));
        let right = self
            .nodes
            .insert_reserved(new_node(Some(above), depth, bound));
        put_state(
            &mut self.nodes,
            key,
            State::Split {
                col,
                at,
                why,
                left,
                right,
            },
        );
        add_rank(&mut self.order, (Reverse(bound), depth, left));
        add_rank(&mut self.order, (Reverse(bound), depth, right));
        Ok((left, right))
    }

    /// Puts back a node that was taken: it waits with a bound and keeps the answer of its linear program. If there is no memory, nothing
    /// has changed.
    pub fn wait(&mut self, key: usize, bound: i128, solved: Solved) -> Result<(), Memory>
        requires frontier { IsFrontier self.old }
        requires taken { HasState self.old key States.Taken }
        ensures frontier { IsFrontier self.new }
        ensures waits { OnOk result (SetsState self.old self.new key (States.Waiting bound (Some solved))) }
    {
        self.order.reserve(1)?;
        let depth = self.nodes[key].depth;
        add_rank(&mut self.order, (Reverse(bound), depth, key));
        put_state(
            &mut self.nodes,
            key,
            State::Waiting {
                bound,
                solved: Some(solved),
            },
        );
        Ok(())
    }

    /// Closes a node that was taken by a certificate.
    pub fn close(&mut self, key: usize, cert: Cert)
        requires frontier { IsFrontier self.old }
        requires taken { HasState self.old key States.Taken }
        ensures frontier { IsFrontier self.new }
        ensures closed { SetsState self.old self.new key (States.Closed cert) }
    {
        self.finish(key, State::Closed(cert));
    }

    /// Says of a node that was taken that it has to be split, for a reason, and may not be.
    pub fn stick(&mut self, key: usize, why: Why)
        requires frontier { IsFrontier self.old }
        requires taken { HasState self.old key States.Taken }
        ensures frontier { IsFrontier self.new }
        ensures stuck { SetsState self.old self.new key (States.Stuck why) }
    {
        self.finish(key, State::Stuck(why));
    }

    /// Gives a node that was taken its last state, in which it neither waits nor has children.
    fn finish(&mut self, key: usize, state: State)
        requires frontier { IsFrontier self.old }
        requires taken { HasState self.old key States.Taken }
        requires last { IsFinished state }
        ensures frontier { IsFrontier self.new }
        ensures set { SetsState self.old self.new key state }
    {
        put_state(&mut self.nodes, key, state);
    }
}
