//! What one living tableau proposes for one box after another of a small model.
use dual_proposals::{Answer, DualTableau, Proposed, propose, start};
use ip_defs::{Area, Memory};
use ip_model::IntModel;
use sample_models::{SampleError, three_rows};
use std::alloc::{Alloc, Global};

/// A proposal that is expected.
#[derive(Clone, Copy)]
enum Expected<'a> {
    Best {
        numerators: &'a [i128],
        denominator: i128,
    },
    Cut,
    Empty {
        divisor: i64,
    },
    GaveUp,
}

/// A box, the most steps there, the cost to cut at, and the proposal.
#[derive(Clone, Copy)]
struct Case<'a> {
    sides: [(i64, i64); 3],
    limit: u32,
    cut_at: Option<i128>,
    expected: Expected<'a>,
}

/// Whether a proposal is the expected one.
fn is_expected(proposed: &Proposed, expected: Expected<'_>) -> bool {
    match proposed {
        Proposed::Best(proposal) => match expected {
            Expected::Best {
                numerators,
                denominator,
            } => {
                proposal.numerators.as_slice() == numerators && proposal.denominator == denominator
            }
            _ => false,
        },
        Proposed::Cut(_) => matches!(&expected, Expected::Cut),
        Proposed::Empty(cert) => match expected {
            Expected::Empty { divisor } => cert.q == divisor,
            _ => false,
        },
        Proposed::GaveUp => matches!(&expected, Expected::GaveUp),
    }
}

/// What a tableau proposes for a box.
fn answer_for(
    alloc: Global,
    model: &IntModel,
    tableau: &mut DualTableau,
    case: Case<'_>,
) -> Result<Answer, Memory> {
    let area = Area::from_vec(Vec::from_slice(alloc, &case.sides)?);
    propose(alloc, tableau, model, &area, case.limit, case.cut_at)
}

/// Whether a tableau proposes for a box what is expected.
fn proposes(alloc: Global, model: &IntModel, tableau: &mut DualTableau, case: Case<'_>) -> bool {
    match answer_for(alloc, model, tableau, case) {
        Ok(answer) => is_expected(&answer.proposed, case.expected),
        Err(_) => false,
    }
}

/// Whether a tableau proposes for each of the boxes what is expected.
fn proposes_each(
    alloc: Global,
    model: &IntModel,
    tableau: &mut DualTableau,
    cases: &[Case<'_>],
) -> bool {
    for case in cases {
        if !proposes(alloc, model, tableau, *case) {
            return false;
        }
    }
    true
}

/// Whether a new tableau of a model proposes for each of the boxes what is expected.
fn new_tableau_proposes(alloc: Global, model: &IntModel, cases: &[Case<'_>]) -> bool {
    match start(alloc, model) {
        Ok(mut tableau) => proposes_each(alloc, model, &mut tableau, cases),
        Err(_) => false,
    }
}

/// Whether a new tableau of the three rows proposes for each of the boxes what is expected.
fn three_rows_propose(alloc: Global, cases: &[Case<'_>]) -> bool {
    match three_rows(alloc) {
        Ok(model) => new_tableau_proposes(alloc, &model, cases),
        Err(_) => false,
    }
}

/// The box of the model.
const WHOLE: [(i64, i64); 3] = [(0, 10), (0, 10), (0, 10)];

const BEST_OF_WHOLE: Expected = Expected::Best {
    numerators: &[2, 0, 1],
    denominator: 1,
};

/// A box with ample steps and no cost to cut at.
fn within<'a>(sides: [(i64, i64); 3], expected: Expected<'a>) -> Case<'a> {
    Case {
        sides,
        limit: 100,
        cut_at: None,
        expected,
    }
}

#[test]
fn a_living_tableau(rt: HostRuntime) -> Result<(), SampleError> {
    let at_a_half = Expected::Best {
        numerators: &[2, 0, 5],
        denominator: 2,
    };
    let at_the_second = Expected::Best {
        numerators: &[0, 1, 2],
        denominator: 1,
    };
    let cases = [
        within(WHOLE, BEST_OF_WHOLE),
        within([(0, 1), (0, 10), (0, 10)], at_a_half),
        within([(0, 10), (1, 10), (0, 10)], at_the_second),
        within([(3, 10), (0, 10), (0, 10)], Expected::Empty { divisor: 0 }),
        within(WHOLE, BEST_OF_WHOLE),
    ];
    assert!(rt; three_rows_propose(rt.alloc(), &cases));
    Ok(())
}

#[test]
fn cuts_and_limits(rt: HostRuntime) -> Result<(), SampleError> {
    let table = [
        (100, Some(-13), Expected::Cut),
        (100, Some(-12), BEST_OF_WHOLE),
        (0, None, Expected::GaveUp),
    ];
    for (limit, cut_at, expected) in table {
        let case = Case {
            sides: WHOLE,
            limit,
            cut_at,
            expected,
        };
        assert!(rt; three_rows_propose(rt.alloc(), &[case]));
    }
    Ok(())
}
