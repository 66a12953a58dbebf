//! Blank certificates of each length, so that one can be filled in without memory.
ghost use Rattle.std.specs.Prelude.{◌≡◌, ◌≤◌, length, IfOk};
ghost use Rattle.ip_defs.specs.Limits.{IsArea};
ghost use Rattle.leaf_cert.specs.Scratches.{FitsScratch, column_count_of};
ghost use Rattle.tree_checker.specs.Internal.Leaves.{cert_bound};

use ip_defs::{Area, Bound, Cert, Memory, Multipliers};
use ip_model::IntModel;
use leaf_cert::{Scratch, cert_ok, leaf_bound};
use std::alloc::Global;
use std::marker::Model;

/// A blank certificate for each number of multipliers up to a greatest one, which contracts see. A certificate's list does not show
/// its capacity to contracts, so that each length has a list of its own.
#[derive(Drop)]
pub(crate) struct Blanks {
    certs: Vec<Cert>,
}

impl Model for Blanks {
    ghost use Rattle.std.specs.Prelude.{ℕ, ◌-◌, ◌<◌, length};
    ghost use Rattle.tree_checker.specs.Internal.Leaves.{AreBlank};

    ghost Value = { ℕ };

    ghost view = { λ b. length b.certs.items - 1 };

    ghost invariant = { λ b. (0 < length b.certs.items) × AreBlank b.certs.items };
}

/// Overwrites a list by another of its length.
fn overwrite(list: &mut Multipliers, by: &[(u32, i64)])
    requires { length list.old ≡ length by.now }
    ensures { list.new ≡ by.now }
{
    for (i, pair) in by.iter().enumerate() {
        list.set(i, *pair);
    }
}

/// The bound of a leaf by a divisor and multipliers, which overwrite a certificate of their length, or none where they are no certificate
/// for the rows of the model.
fn bound_of(
    model: &IntModel,
    cert: &mut Cert,
    q: i64,
    y: &[(u32, i64)],
    area: &Area,
    scratch: &mut Scratch,
) -> Option<Bound>
    requires size { length cert.old.y ≡ length y.now }
    requires area { IsArea (length model.now.columns) area.now }
    requires fits { FitsScratch model.now scratch.old }
    ensures bound { result ≡ cert_bound model.now area.now (record { q = q; y = y.now }) }
    ensures size { length cert.new.y ≡ length y.now }
    ensures scratch { column_count_of scratch.new ≡ column_count_of scratch.old }
{
    overwrite(&mut cert.y, y);
    cert.q = q;
    let rows = model.parts().rows.as_slice().len() as u32;
    if cert_ok(cert, rows) {
        Some(leaf_bound(model, cert, area, scratch))
    } else {
        None
    }
}

impl Blanks {
    /// Blanks for at most some number of multipliers. The only call that takes memory.
    pub(crate) fn new(alloc: Global, most: usize) -> Result<Blanks, Memory>
        requires { most ≤ 1024 }
        ensures { IfOk result (λ b. b ≡ most) }
    {
        let mut certs = Vec::new(alloc);
        for n in 0..most + 1 {
            let y = Multipliers::from_vec(vec![in alloc; (0, 0); n]?);
            certs.push(Cert { q: 0, y })?;
        }
        Ok(Blanks { certs })
    }

    /// The bound of a leaf by a divisor and multipliers, or none where they are no certificate for the rows of the model.
    pub(crate) fn bound(
        &mut self,
        model: &IntModel,
        q: i64,
        y: &[(u32, i64)],
        area: &Area,
        scratch: &mut Scratch,
    ) -> Option<Bound>
        requires rows { self.old ≡ length model.now.rows }
        requires area { IsArea (length model.now.columns) area.now }
        requires fits { FitsScratch model.now scratch.old }
        ensures bound { result ≡ cert_bound model.now area.now (record { q = q; y = y.now }) }
        ensures rows { self.new ≡ self.old }
        ensures scratch { column_count_of scratch.new ≡ column_count_of scratch.old }
    {
        if y.len() >= self.certs.len() {
            return None;
        }
        let cert = &mut self.certs[y.len()];
        bound_of(model, cert, q, y, area, scratch)
    }
}
