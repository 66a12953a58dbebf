//! Searches that stop at each number of nodes.

use crate::tests::endings::{End, case_of, limits};
use crate::tests::samples::Sample;
use crate::tests::searches::is_so;
use sample_models::SampleError;
use std::alloc::Global;

/// Whether a search that needs more nodes stops rightly at this number of them: a node is split only where two more are allowed, so the
/// tree has the greatest odd number of nodes. Without steps each split is skipped.
fn stops_at(alloc: Global, sample: Sample, pivots: u32, nodes: u32) -> bool {
    let splits = nodes.saturating_sub(1) / 2;
    let skipped = if pivots == 0 { splits } else { 0 };
    let limits = limits(nodes, 800, pivots);
    is_so(
        alloc,
        case_of(sample, limits, End::OutOfNodes, splits * 2 + 1, skipped),
    )
}

#[test]
fn stops_at_each_number_of_nodes(rt: HostRuntime) -> Result<(), SampleError> {
    let table = [
        // no point is feasible, and after 21 nodes a point is found
        (Sample::Parity(1000), 5_000, 60),
        (Sample::Knapsack, 5_000, 60),
        // without linear programs; the last one needs 45 nodes
        (Sample::Parity(1000), 0, 60),
        (Sample::ThreeRows, 0, 44),
    ];
    for (sample, pivots, most) in table {
        for nodes in 1..=most {
            assert!(rt; stops_at(rt.alloc(), sample, pivots, nodes));
        }
    }
    Ok(())
}
