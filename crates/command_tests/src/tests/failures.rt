//! Failures of the shelf and the sink, each with its status; and the numbers and lines of the statuses.

use crate::tests::runs::{Given, checking, ends, failing, solving, with_tree, writes};
use crate::tests::texts::{EMPTY_COLUMN, THREE_ROWS, THREE_ROWS_ANSWER};
use ips_io::mem_sink;
use ipsens_core::{Status, report};
use sample_models::ONE_LEAF;
use std::alloc::Global;

#[test]
fn searches_over_failing_calls(rt: HostRuntime) {
    let given = solving(EMPTY_COLUMN.as_bytes(), 100, 5);
    for (shelf_fails, sink_fails, status, text) in [
        (0, 0, Status::Answered, "empty\nnodes 1\nskipped 0\n"),
        (1, 0, Status::ReadFault, ""),
        (2, 0, Status::ReadFault, ""),
        (0, 1, Status::WriteFault, ""),
        (0, 2, Status::WriteFault, "empty"),
    ] {
        let failing = failing(&given, shelf_fails, sink_fails);
        assert!(rt;
            ends(rt.alloc(), &failing, &writes(status, text)),
            "{shelf_fails} {sink_fails}"
        );
    }
}

/// The model is begun and read in three calls; the fourth saves.
#[test]
fn saves_over_failing_calls(rt: HostRuntime) {
    let given = Given {
        line: "solve m --tree t",
        ..solving(THREE_ROWS.as_bytes(), 10_000, 5)
    };
    for (shelf_fails, sink_fails, wanted) in [
        (1, 0, writes(Status::ReadFault, "")),
        (2, 0, writes(Status::ReadFault, "")),
        (3, 0, writes(Status::ReadFault, "")),
        (4, 0, writes(Status::WriteFault, "")),
        (5, 0, with_tree(Status::Answered, THREE_ROWS_ANSWER)),
        (0, 1, with_tree(Status::WriteFault, "")),
        (0, 2, with_tree(Status::WriteFault, "optim")),
    ] {
        let failing = failing(&given, shelf_fails, sink_fails);
        assert!(rt;
            ends(rt.alloc(), &failing, &wanted),
            "{shelf_fails} {sink_fails}"
        );
    }
}

/// The model and the tree are each begun and read in three calls.
#[test]
fn checks_over_failing_calls(rt: HostRuntime) {
    let given = checking(THREE_ROWS.as_bytes(), &ONE_LEAF, 10_000, 5);
    for (shelf_fails, sink_fails, status, text) in [
        (1, 0, Status::ReadFault, ""),
        (2, 0, Status::ReadFault, ""),
        (3, 0, Status::ReadFault, ""),
        (4, 0, Status::ReadFault, ""),
        (5, 0, Status::ReadFault, ""),
        (6, 0, Status::ReadFault, ""),
        (7, 0, Status::Answered, "proved -13\n"),
        (0, 1, Status::WriteFault, ""),
        (0, 3, Status::WriteFault, "proved -13"),
    ] {
        let failing = failing(&given, shelf_fails, sink_fails);
        assert!(rt;
            ends(rt.alloc(), &failing, &with_tree(status, text)),
            "{shelf_fails} {sink_fails}"
        );
    }
}

/// Whether a status has this number, and writes this to standard error.
fn reports(alloc: Global, status: Status, number: u8, text: &str) -> bool {
    match mem_sink(alloc, 100, 100) {
        Ok(mut sink) => report(status, &mut sink) == number && sink.bytes() == text.as_bytes(),
        Err(_) => false,
    }
}

#[test]
fn statuses_are_reported(rt: HostRuntime) {
    for (status, number, text) in [
        (Status::Answered, 0, ""),
        (Status::Budget, 4, ""),
        (Status::ReadFault, 6, "read fault\n"),
        (Status::WriteFault, 7, "write fault\n"),
        (Status::Memory, 8, "out of memory\n"),
    ] {
        assert!(rt; reports(rt.alloc(), status, number, text), "{number}");
    }
}
