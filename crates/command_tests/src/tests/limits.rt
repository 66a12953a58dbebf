//! Files at their limits and beyond each of them, made by formulas.

use crate::tests::runs::{Given, Wanted, begins, checking, ends, solving, with_tree, writes};
use crate::tests::texts::{ODD, SMALL, SMALL_SHOWN};
use ip_defs::Memory;
use ipsens_core::Status;
use sample_models::TWO_SPLITS;
use std::alloc::{AllocError, Global};

/// Whether a file of comment bytes is refused so.
fn comments_end(alloc: Global, bytes: usize, wanted: &Wanted<'_>) -> bool {
    match vec![in alloc; b'*'; bytes] {
        Ok(text) => ends(alloc, &solving(text.as_slice(), 100_000, 100_000), wanted),
        Err(_) => false,
    }
}

#[test]
fn texts_of_16_mebibytes(rt: HostRuntime) {
    for (bytes, text) in [
        (16_777_216, "refused model M19\n"),
        (16_777_217, "refused model too long\n"),
    ] {
        assert!(rt;
            comments_end(rt.alloc(), bytes, &writes(Status::Refused, text)),
            "{bytes} bytes"
        );
    }
}

/// A text of 16 MiB: comments of 16 bytes, and then the small model of 80 bytes.
fn long_text(alloc: Global) -> Result<String, AllocError> {
    let mut text = String::with_capacity(alloc, 16_777_216)?;
    for _ in 0..1_048_571 {
        text.push_str("* and a comment\n")?;
    }
    text.push_str(SMALL)?;
    Ok(text)
}

/// Whether that text has 16 MiB, and is read and shown as the small model.
fn shows_long_text(alloc: Global) -> bool {
    match long_text(alloc) {
        Ok(text) => {
            let given = Given {
                line: "show m",
                ..solving(text.as_bytes(), 100_000, 100_000)
            };
            text.len() == 16_777_216 && ends(alloc, &given, &writes(Status::Answered, SMALL_SHOWN))
        }
        Err(_) => false,
    }
}

#[test]
fn a_model_of_16_mebibytes(rt: HostRuntime) {
    assert!(rt; shows_long_text(rt.alloc()));
}

/// Adds a line for each number below a count.
fn push_lines(
    alloc: Global,
    text: &mut String,
    front: &str,
    count: u32,
    end: &str,
) -> Result<(), AllocError> {
    for j in 0..count {
        let line = format!(in alloc; "{front}{j}{end}\n")?;
        text.push_str(line.as_str())?;
    }
    Ok(())
}

/// A command over a model of columns `x0`, `x1`, .. from 0 to 1, each with cost -1 and a coefficient 1 in each of the rows `r0`, `r1`, ..,
/// which are at most 50.
#[derive(Clone, Copy)]
struct Large<'a> {
    line: &'a str,
    rows: u32,
    columns: u32,
}

/// Adds the lines of a column.
fn push_column(alloc: Global, text: &mut String, column: u32, rows: u32) -> Result<(), AllocError> {
    let cost = format!(in alloc; " x{column} c -1\n")?;
    text.push_str(cost.as_str())?;
    let front = format!(in alloc; " x{column} r")?;
    push_lines(alloc, text, front.as_str(), rows, " 1")
}

/// Adds the columns of the model.
fn push_columns(alloc: Global, text: &mut String, large: &Large<'_>) -> Result<(), AllocError> {
    text.push_str("COLUMNS\n")?;
    for column in 0..large.columns {
        push_column(alloc, text, column, large.rows)?;
    }
    Ok(())
}

/// Adds the right sides of the rows and the bounds of the columns.
fn push_sides(alloc: Global, text: &mut String, large: &Large<'_>) -> Result<(), AllocError> {
    text.push_str("RHS\n")?;
    push_lines(alloc, text, " S r", large.rows, " 50")?;
    text.push_str("BOUNDS\n")?;
    push_lines(alloc, text, " BV B x", large.columns, "")?;
    text.push_str("ENDATA\n")
}

/// The text of the model.
fn text_of(alloc: Global, large: &Large<'_>) -> Result<String, AllocError> {
    let mut text = String::from_str(alloc, "ROWS\n N c\n")?;
    push_lines(alloc, &mut text, " L r", large.rows, "")?;
    push_columns(alloc, &mut text, large)?;
    push_sides(alloc, &mut text, large)?;
    Ok(text)
}

/// Whether the command ends so.
fn large_ends(alloc: Global, large: &Large<'_>, wanted: &Wanted<'_>) -> bool {
    match text_of(alloc, large) {
        Ok(text) => {
            let given = Given {
                line: large.line,
                ..solving(text.as_bytes(), 100_000, 100_000)
            };
            ends(alloc, &given, wanted)
        }
        Err(_) => false,
    }
}

#[test]
fn models_of_many_rows_or_columns(rt: HostRuntime) {
    let answered = Status::Answered;
    let refused = Status::Refused;
    for (rows, columns, wanted) in [
        (0, 4096, begins(answered, "optimum -4096\nvalue x0 1\n")),
        (0, 4097, writes(refused, "refused model M17 columns 0\n")),
        (
            1024,
            1,
            writes(answered, "optimum -1\nvalue x0 1\nnodes 1\nskipped 0\n"),
        ),
        (1025, 1, writes(refused, "refused model M17 rows 0\n")),
        (3, 100, begins(answered, "optimum -50\nvalue x0 ")),
    ] {
        let large = Large {
            line: "solve m",
            rows,
            columns,
        };
        assert!(rt;
            large_ends(rt.alloc(), &large, &wanted),
            "{rows} rows and {columns} columns"
        );
    }
}

#[test]
fn models_of_many_entries(rt: HostRuntime) {
    let refusal = "refused model M17 entries 0\n";
    for (line, columns, wanted) in [
        (
            "show m",
            200,
            begins(Status::Answered, "NAME\nROWS\n N c\n L r0\n"),
        ),
        ("solve m", 201, writes(Status::Refused, refusal)),
    ] {
        let large = Large {
            line,
            rows: 1000,
            columns,
        };
        assert!(rt;
            large_ends(rt.alloc(), &large, &wanted),
            "{columns} columns"
        );
    }
}

/// Appends a node of three bytes a number of times.
fn push_nodes(bytes: &mut Vec<u8>, node: [u8; 3], count: u32) -> Result<(), AllocError> {
    for _ in 0..count {
        bytes.push(node[0])?;
        bytes.push(node[1])?;
        bytes.push(node[2])?;
    }
    Ok(())
}

/// The complete tree of depth 19 in preorder, behind a claim of emptiness: before each leaf come the splits that begin with it.
fn complete_tree(alloc: Global) -> Result<Vec<u8>, Memory> {
    let mut bytes = Vec::from_slice(alloc, &TWO_SPLITS[..6])?;
    for leaf in 0..524_288_u32 {
        push_nodes(
            &mut bytes,
            [0x53, 0x00, 0x00],
            (leaf | 524_288).trailing_zeros(),
        )?;
        push_nodes(&mut bytes, [0x4c, 0x01, 0x00], 1)?;
    }
    Ok(bytes)
}

/// Whether the complete tree is refused with this text.
fn complete_tree_ends(alloc: Global, text: &str) -> bool {
    match complete_tree(alloc) {
        Ok(tree) => ends(
            alloc,
            &checking(ODD.as_bytes(), tree.as_slice(), 100_000, 100),
            &with_tree(Status::Refused, text),
        ),
        Err(_) => false,
    }
}

#[test]
fn trees_of_too_many_nodes(rt: HostRuntime) {
    assert!(rt; complete_tree_ends(rt.alloc(), "refused tree F8 place 3000006\n"));
}
