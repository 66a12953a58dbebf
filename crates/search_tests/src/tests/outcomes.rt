//! The outcomes of small models, with ample limits and with limits that stop the search.

use crate::tests::endings::{End, case_of, limits};
use crate::tests::samples::Sample;
use crate::tests::searches::is_so;
use branching::{BudgetWhat, Limits};
use sample_models::SampleError;

/// Ample limits but for the steps of a linear program.
fn ample(pivots: u32) -> Limits {
    limits(100_000, 800, pivots)
}

/// A claimed point with its cost and the number of reasons.
fn best(point: &[i64], cost: i128, reasons: usize) -> End<'_> {
    End::Best {
        point,
        cost,
        reasons,
    }
}

#[test]
fn searches_that_end(rt: HostRuntime) -> Result<(), SampleError> {
    let table = [
        case_of(Sample::Half, ample(5_000), best(&[1], -1, 1), 3, 0),
        case_of(Sample::Half, ample(0), best(&[1], -1, 3), 7, 3),
        case_of(Sample::NoRows, ample(5_000), best(&[0, 4], -4, 0), 1, 0),
        case_of(Sample::NoRows, ample(0), best(&[0, 4], -4, 8), 17, 8),
        // a whole relaxation
        case_of(
            Sample::ThreeRows,
            ample(5_000),
            best(&[2, 0, 1], -13, 0),
            1,
            0,
        ),
        // no whole point
        case_of(
            Sample::Parity(1),
            ample(5_000),
            End::Empty { reasons: 2 },
            5,
            0,
        ),
        case_of(Sample::Parity(1), ample(0), End::Empty { reasons: 2 }, 5, 2),
        // no point
        case_of(
            Sample::EmptyColumn,
            ample(5_000),
            End::Empty { reasons: 0 },
            1,
            0,
        ),
        case_of(
            Sample::NegativeSum,
            ample(5_000),
            End::Empty { reasons: 0 },
            1,
            0,
        ),
        // one step for each linear program: the living tableau keeps the steps of the nodes before, so that it ends some linear programs;
        // the others are stopped
        case_of(Sample::ThreeRows, ample(1), best(&[2, 0, 1], -13, 2), 5, 2),
        // where the proposer gives up the defined simplex decides: no proposal has a denominator as wide as the first vertex needs
        case_of(
            Sample::WideVertex,
            ample(5_000),
            best(&[1, 1], -2_147_483_648, 2),
            5,
            0,
        ),
    ];
    for case in table {
        assert!(rt; is_so(rt.alloc(), case));
    }
    Ok(())
}

/// Of bounds that are the same the deepest node is next, and of these the one made last: with the shallowest node next this search has 239
/// nodes, and with the one made first 89.
#[test]
fn ties_of_bounds(rt: HostRuntime) -> Result<(), SampleError> {
    let search = case_of(Sample::Difference, ample(0), best(&[20, 13], 0, 22), 45, 22);
    assert!(rt; is_so(rt.alloc(), search));
    Ok(())
}

#[test]
fn searches_that_stop(rt: HostRuntime) -> Result<(), SampleError> {
    let out_of_nodes = End::Stopped {
        what: BudgetWhat::Nodes,
        best: None,
    };
    let too_deep = End::Stopped {
        what: BudgetWhat::Depth,
        best: None,
    };
    let at_a_point = End::Stopped {
        what: BudgetWhat::Nodes,
        best: Some(&[1, 0, 2]),
    };
    let parity = Sample::Parity(1000);
    let table = [
        case_of(parity, limits(50, 800, 5_000), out_of_nodes, 49, 0),
        case_of(parity, limits(1, 800, 5_000), out_of_nodes, 1, 0),
        case_of(parity, limits(50, 0, 5_000), too_deep, 1, 0),
        case_of(parity, limits(1, 0, 5_000), too_deep, 1, 0),
        case_of(parity, limits(50, 800, 0), out_of_nodes, 49, 24),
        case_of(parity, limits(50, 3, 0), too_deep, 7, 3),
        // a search that stops after it has found a point
        case_of(Sample::ThreeRows, limits(43, 800, 0), at_a_point, 43, 21),
    ];
    for case in table {
        assert!(rt; is_so(rt.alloc(), case));
    }
    Ok(())
}

/// Searches without steps as deep as they may go: of bounds that are the same the deepest node is next, and its upper half first. There are
/// 721 splits down to the first point, and 800 down to a stop.
#[test]
fn deep_searches(rt: HostRuntime) -> Result<(), SampleError> {
    let mut point = [16_777_216; 31];
    point[30] = 1;
    let too_deep = End::Stopped {
        what: BudgetWhat::Depth,
        best: None,
    };
    let table = [
        case_of(
            Sample::WideColumns(30),
            ample(0),
            best(&point, -1, 721),
            1443,
            721,
        ),
        case_of(Sample::WideColumns(40), ample(0), too_deep, 1601, 800),
    ];
    for case in table {
        assert!(rt; is_so(rt.alloc(), case));
    }
    Ok(())
}
