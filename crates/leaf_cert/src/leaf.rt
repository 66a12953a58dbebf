//! The bound of a leaf, by its certificate.
ghost use Rattle.std.specs.Prelude.{◌≡◌, ◌^◌, ◌≤◌, ◌*ℤ◌, IfSome, length, List, ℤ};
ghost use Rattle.std.specs.Int.RustNames.{unsigned_abs};
ghost use Rattle.ip_defs.specs.Program.{IsFeasible, IsIn, cost};
ghost use Rattle.ip_defs.specs.Certificates.{IsAtMost, dual_value, box_sum, leaf_bound as leaf_bound_of};
ghost use Rattle.ip_defs.specs.Limits.{IsWithinLimits, IsCert, IsArea};
ghost use Rattle.ip_model.specs.Places.{Exists, raised};
ghost use Rattle.leaf_cert.specs.Changes.{IsChange, IsWithinLimit, changed_by};
ghost use Rattle.leaf_cert.specs.Scratches.{FitsScratch, column_count_of};

use crate::arithmetic::ceil_div;
use crate::changes::{Change, changed_pay, changed_sum};
use crate::columns::{clear, take_rows};
use crate::workspaces::Scratch;
use ip_defs::{Area, Bound, Cert, Parts};
use ip_model::{IntModel, Place, has_empty_column, product, total_of};

/// The constant times q.
fn weighed(q: i64, constant: i64) -> i128
    requires q_small { unsigned_abs q ≤ 2 ^ 36 }
    requires constant_small { unsigned_abs constant ≤ 2 ^ 62 }
    ensures value { result ≡ q *ℤ constant }
    ensures small { unsigned_abs result ≤ 2 ^ 98 }
{
    product(i128::from(q), i128::from(constant))
}

/// The dual value of the certificate over the box after a change: payments, constant and columns, in absolute value at most 2^109, 2^98
/// and 2^124.
fn dual_value_of(
    parts: &Parts,
    change: Change,
    cert: &Cert,
    area: &[(i64, i64)],
    taken: &mut [i128],
) -> Option<i128>
    requires limits { IsWithinLimits parts.now }
    requires change { IsChange parts.now change }
    requires cert { IsCert (length parts.now.rows) cert.now }
    requires area { IsArea (length parts.now.columns) area.now }
    requires scratch { length taken.old ≡ length parts.now.columns }
    ensures value { result ≡ dual_value (changed_by parts.now change) area.now cert.now.q cert.now.y }
    ensures small { IfSome result (λ g. unsigned_abs g ≤ 2 ^ 125) }
{
    let y = cert.y.as_slice();
    match changed_pay(parts, change, y) {
        Some(paid) => {
            take_rows(parts, y, taken);
            let whole = weighed(cert.q, parts.constant);
            let columns = changed_sum(parts, change, cert.q, y, taken, area);
            Some(total_of(total_of(paid, whole), columns))
        }
        None => None,
    }
}

/// The sum of the box after a change: the bound without multipliers.
fn box_sum_of(parts: &Parts, change: Change, area: &[(i64, i64)], taken: &mut [i128]) -> i128
    requires limits { IsWithinLimits parts.now }
    requires change { IsChange parts.now change }
    requires area { IsArea (length parts.now.columns) area.now }
    requires scratch { length taken.old ≡ length parts.now.columns }
    ensures { result ≡ box_sum (changed_by parts.now change) area.now }
{
    clear(taken);
    total_of(
        i128::from(parts.constant),
        changed_sum(parts, change, 1, &[], taken, area),
    )
}

/// The bound of a leaf after a change, by its cases.
fn bound_of(
    parts: &Parts,
    change: Change,
    cert: &Cert,
    area: &[(i64, i64)],
    taken: &mut [i128],
) -> Bound
    requires limits { IsWithinLimits parts.now }
    requires change { IsChange parts.now change }
    requires cert { IsCert (length parts.now.rows) cert.now }
    requires area { IsArea (length parts.now.columns) area.now }
    requires scratch { length taken.old ≡ length parts.now.columns }
    ensures { result ≡ leaf_bound_of (changed_by parts.now change) area.now cert.now }
{
    if has_empty_column(area) {
        return Bound::Infinite;
    }
    match dual_value_of(parts, change, cert, area, taken) {
        Some(value) => {
            if cert.q > 0 {
                return Bound::At(ceil_div(value, i128::from(cert.q)));
            }
            if value > 0 {
                return Bound::Infinite;
            }
            Bound::At(box_sum_of(parts, change, area, taken))
        }
        None => Bound::At(box_sum_of(parts, change, area, taken)),
    }
}

/// The bound of a leaf: every feasible point of the model in the box `area` costs at least this bound, and if it is infinite there is no
/// such point. Allocates nothing, and leaves the box of the scratch as it was.
///
/// The bound is infinite where a column of the box is empty. Else, if every row has the side that its multiplier is paid for: for
/// `q > 0` it is the dual value over `q`, rounded up, and for `q = 0` it is infinite where the dual value is positive. In all other
/// cases it is the sum of the box.
pub fn leaf_bound(model: &IntModel, cert: &Cert, area: &Area, scratch: &mut Scratch) -> Bound
    requires cert { IsCert (length model.now.rows) cert.now }
    requires area { IsArea (length model.now.columns) area.now }
    requires fits { FitsScratch model.now scratch.old }
    ensures bound { result ≡ leaf_bound_of model.now area.now cert.now }
    ensures holds { (x : List ℤ) → IsFeasible model.now x → IsIn area.now x → IsAtMost result (cost model.now x) }
    ensures area { scratch.new.area ≡ scratch.old.area }
    ensures scratch { column_count_of scratch.new ≡ column_count_of scratch.old }
{
    leaf_bound_after(model, None, cert, area, scratch)
}

/// The bound of a leaf in the model after a change, which is never made, over a box of that model. Allocates nothing, and leaves the box of
/// the scratch as it was.
pub fn leaf_bound_after(
    model: &IntModel,
    change: Change,
    cert: &Cert,
    area: &Area,
    scratch: &mut Scratch,
) -> Bound
    requires change { IsChange model.now change }
    requires cert { IsCert (length model.now.rows) cert.now }
    requires area { IsArea (length model.now.columns) area.now }
    requires fits { FitsScratch model.now scratch.old }
    ensures bound { result ≡ leaf_bound_of (changed_by model.now change) area.now cert.now }
    ensures area { scratch.new.area ≡ scratch.old.area }
    ensures scratch { column_count_of scratch.new ≡ column_count_of scratch.old }
{
    bound_of(
        model.parts(),
        change,
        cert,
        area.as_slice(),
        scratch.taken.as_mut_slice(),
    )
}

/// The bound of a leaf in the model in which the number at a place is raised by `by`, which may be negative, over a box of that model. The
/// place exists, and the number stays within its limit. The model is never made. Allocates nothing, and leaves the box of the scratch as
/// it was.
pub fn leaf_bound_at(
    model: &IntModel,
    place: Place,
    by: i128,
    cert: &Cert,
    area: &Area,
    scratch: &mut Scratch,
) -> Bound
    requires exists { Exists model.now place }
    requires within { IsWithinLimit model.now place by }
    requires cert { IsCert (length model.now.rows) cert.now }
    requires area { IsArea (length model.now.columns) area.now }
    requires fits { FitsScratch model.now scratch.old }
    ensures bound { result ≡ leaf_bound_of (raised model.now place by) area.now cert.now }
    ensures area { scratch.new.area ≡ scratch.old.area }
    ensures scratch { column_count_of scratch.new ≡ column_count_of scratch.old }
{
    leaf_bound_after(model, Some((place, by)), cert, area, scratch)
}
