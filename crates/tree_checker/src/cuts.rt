//! The cuts of the box of a node: one for each split above it, the lowest first.
ghost use Rattle.std.specs.Prelude.{◌≡◌, ◌==◌, ◌<◌, ◌∷◌, [], length, IfOk, IfNone, IfSome};

use ip_defs::Memory;
use std::alloc::Global;
use std::marker::Model;

/// The most cuts.
const ROOM: usize = 800;

/// A split above a node, with what its column was before it was cut.
#[derive(Clone, Copy, Drop)]
pub(crate) struct Cut {
    /// The column.
    pub(crate) col: u32,
    /// The left half keeps the numbers up to this one.
    pub(crate) at: i64,
    /// The bounds of the column before the split.
    pub(crate) sides: (i64, i64),
    /// Whether the node lies in the right half.
    pub(crate) right: bool,
}

/// At most 800 cuts, the lowest first. Contracts see the list.
#[derive(Drop)]
pub(crate) struct Cuts {
    cuts: Vec<Cut>,
    unused: usize,
}

impl Model for Cuts {
    ghost use Rattle.std.specs.Prelude.{List, ◌≡◌, ◌≤◌, length, drop};
    ghost use Rattle.tree_checker.specs.declared.cuts.Cut.{Cut};

    ghost Value = { List Cut };

    ghost view = { λ c. drop c.unused c.cuts.items };

    ghost invariant = { λ c. (length c.cuts.items ≡ 800) × (c.unused ≤ 800) };
}

impl Cuts {
    /// No cuts. The only call that takes memory.
    pub(crate) fn new(alloc: Global) -> Result<Cuts, Memory>
        ensures { IfOk result (λ c. c ≡ []) }
    {
        let none = Cut {
            col: 0,
            at: 0,
            sides: (0, 0),
            right: false,
        };
        Ok(Cuts {
            cuts: vec![in alloc; none; ROOM]?,
            unused: ROOM,
        })
    }

    /// How many cuts there are.
    pub(crate) fn len(&self) -> usize
        ensures { result ≡ length self.now }
    {
        ROOM - self.unused
    }

    /// Puts a cut before the others.
    pub(crate) fn push(&mut self, cut: Cut)
        requires { length self.old < 800 }
        ensures { self.new ≡ cut ∷ self.old }
    {
        self.unused -= 1;
        self.cuts[self.unused] = cut;
    }

    /// Takes the lowest cut away.
    pub(crate) fn pop(&mut self) -> Option<Cut>
        ensures some { IfSome result (λ cut. self.old ≡ cut ∷ self.new) }
        ensures none { IfNone result ((self.old ≡ []) × (self.new ≡ [])) }
    {
        if self.unused == ROOM {
            return None;
        }
        let cut = self.cuts[self.unused];
        self.unused += 1;
        Some(cut)
    }
}
