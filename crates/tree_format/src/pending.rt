//! The trees that are still to be read, the next one first.
ghost use Rattle.std.specs.Prelude.{◌≡◌, ◌<◌, ◌∷◌, [], length, IfOk, IfNone, IfSome};
ghost use Rattle.tree_format.specs.Internal.Fields.{is_none};

use ip_defs::Memory;
use std::alloc::Global;
use std::marker::Model;

/// The most trees that can be pending at once.
const ROOM: usize = 802;

/// How many levels each pending tree may have, the next one first. Contracts see the list.
#[derive(Drop)]
pub(crate) struct Pending {
    levels: Vec<u32>,
    unused: usize,
}

impl Model for Pending {
    ghost use Rattle.std.specs.Prelude.{List, ℕ, ◌≡◌, ◌≤◌, length, drop};

    ghost Value = { List ℕ };

    ghost view = { λ p. drop p.unused p.levels.items };

    ghost invariant = { λ p. (length p.levels.items ≡ 802) × (p.unused ≤ 802) };
}

impl Pending {
    /// No trees, with room for as many as a file can have pending. The only call that takes memory.
    pub(crate) fn new(alloc: Global) -> Result<Pending, Memory>
        ensures { IfOk result (λ p. p ≡ []) }
    {
        Ok(Pending {
            levels: vec![in alloc; 0; ROOM]?,
            unused: ROOM,
        })
    }

    /// Puts a tree before the others.
    pub(crate) fn push(&mut self, levels: u32)
        requires { length self.old < 802 }
        ensures { self.new ≡ levels ∷ self.old }
    {
        self.unused -= 1;
        self.levels[self.unused] = levels;
    }

    /// Whether no tree is pending.
    pub(crate) fn is_empty(&self) -> bool
        ensures { result ≡ is_none self.now }
    {
        self.unused == ROOM
    }

    /// Takes the next tree away.
    pub(crate) fn pop(&mut self) -> Option<u32>
        ensures some { IfSome result (λ levels. self.old ≡ levels ∷ self.new) }
        ensures none { IfNone result ((self.old ≡ []) × (self.new ≡ [])) }
    {
        if self.unused == ROOM {
            return None;
        }
        let levels = self.levels[self.unused];
        self.unused += 1;
        Some(levels)
    }
}
