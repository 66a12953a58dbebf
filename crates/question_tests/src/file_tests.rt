//! Question files and sweep files: two texts for each refusal, and what texts that are not refused say.

use question_text::TextError::{Direction, Interval, Number, Unended, Word};
use question_text::{
    AimText, Change, Datum, Question, Questions, Sweep, TextError, read_questions, read_sweep,
};
use std::alloc::{Alloc, Global};

/// Question files and why they are refused.
const ASKS: [(&[u8], TextError); 17] = [
    (b"", Word { line: 1 }),
    (b"\n  * bound\n", Word { line: 3 }),
    (b"\xff", Word { line: 0 }),
    (b"bound\nbound\nend\n", Word { line: 2 }),
    (b"end", Word { line: 1 }),
    (b"bound\ncost x set\nend", Word { line: 2 }),
    (b"bound\ncoef r set 1\nend", Word { line: 2 }),
    (b"bound\ncost x mul 1e\nend", Word { line: 2 }),
    (b"range coef r best", Word { line: 1 }),
    (b"range low r keep", Word { line: 1 }),
    (b"bound\nbound x 1", Word { line: 2 }),
    (b"range cost x keep best", Number { line: 1 }),
    (b"bound\r\nhigh r add 0x1\r\nend", Number { line: 2 }),
    (b"bound\nend\nrange low r keep 1d2", Number { line: 3 }),
    (b"range cost x best\nbound\n", Unended { line: 2 }),
    (b"bound", Unended { line: 1 }),
    (b"\tbound\n *end\n cost x set 1", Unended { line: 1 }),
];

/// Sweep files and why they are refused.
const SWEEPS: [(&[u8], TextError); 26] = [
    (b"", Word { line: 1 }),
    (b"* rows 1\n\n", Word { line: 3 }),
    (b"cost 0 1\n\xff", Word { line: 0 }),
    (b"rows 1 2\nend", Word { line: 1 }),
    (b"bound\nend", Word { line: 1 }),
    (b"cost 0 1\nx 1\ny 2\nx 3x\nend", Word { line: 4 }),
    (b"rows 1\nlow r -1\nhigh r 1\nlow r 1", Word { line: 4 }),
    (b"rows 1\nlower r 1\nend", Word { line: 2 }),
    (b"rows 1\nend\n*\nend", Word { line: 4 }),
    (b"cost 0 1\nend\ncost 0 1\nend", Word { line: 3 }),
    (b"cost +1 2\nend", Number { line: 1 }),
    (b"cost 0 01\nend", Number { line: 1 }),
    (b"rows -1\nend", Number { line: 1 }),
    (b"rows 1234567890123456789\nend", Number { line: 1 }),
    (b"cost 0 1\nx 1/2\nend", Number { line: 2 }),
    (b"cost 0 1\nx 1\n", Unended { line: 1 }),
    (b"\n rows 2\nlow end 0", Unended { line: 2 }),
    (b"rows 3\nhigh r1 -1\nend", Direction { line: 2 }),
    (b"rows 3\nlow r 1e-9\nend", Direction { line: 2 }),
    (b"rows 3\nhigh r -inf\nend", Direction { line: 2 }),
    (b"cost 1 1\nend", Interval { line: 1 }),
    (b"cost -1000001 -2\nend", Interval { line: 1 }),
    (b"cost -500001 500000\nend", Interval { line: 1 }),
    (b"cost 0 1000001\nend", Interval { line: 1 }),
    (b"rows 1000001\nx", Interval { line: 1 }),
    (b"rows 123456789012345678\nx", Interval { line: 1 }),
];

/// The most bytes of a text of these tests.
const MOST: usize = 100;

/// The questions of a text.
fn questions(alloc: Global, text: &[u8]) -> Result<Questions, TextError> {
    if text.len() > MOST {
        return Err(TextError::Memory);
    }
    read_questions(alloc, text)
}

/// The sweep of a text.
fn sweep(alloc: Global, text: &[u8]) -> Result<Sweep, TextError> {
    if text.len() > MOST {
        return Err(TextError::Memory);
    }
    read_sweep(alloc, text)
}

/// Whether what is read is refused so.
fn is_refused<T: Drop>(read: Result<T, TextError>, refusal: TextError) -> bool {
    match read {
        Ok(_) => false,
        Err(error) => error == refusal,
    }
}

#[test]
fn refused_files(rt: HostRuntime) {
    let alloc = rt.alloc();
    for (text, refusal) in &ASKS {
        assert!(rt; is_refused(questions(alloc, text), *refusal));
    }
    for (text, refusal) in &SWEEPS {
        assert!(rt; is_refused(sweep(alloc, text), *refusal));
    }
}

/// A question as a letter and a number: the edits of a `bound` question, or what a range is to keep.
fn code_of(question: &Question) -> (char, usize) {
    match question {
        Question::Ask(edits) => ('a', edits.as_slice().len()),
        Question::Range { aim, .. } => match *aim {
            AimText::Best => ('b', 0),
            AimText::Keep(_) => ('k', 0),
        },
    }
}

/// Whether a text is questions with these codes.
fn asks(alloc: Global, text: &[u8], codes: &[(char, usize)]) -> bool {
    let questions = match questions(alloc, text) {
        Ok(questions) => questions,
        Err(_) => return false,
    };
    let mut same = questions.as_slice().len() == codes.len();
    for (question, code) in questions.as_slice().iter().zip(codes) {
        if code_of(question) != *code {
            same = false;
        }
    }
    same
}

#[test]
fn questions_of_files(rt: HostRuntime) {
    let alloc = rt.alloc();
    let edits: &[u8] = b"bound\n*\ncost x set 1e400\n\thigh r add -.5\nend\n\n";
    let best: &[u8] = b"range coef r keep best\r\nbound\r\nend\r\n";
    let keep: &[u8] = b"range lower x keep inf\nrange low r best";
    assert!(rt; asks(alloc, b"bound\nend", &[('a', 0)]));
    assert!(rt; asks(alloc, edits, &[('a', 2)]));
    assert!(rt; asks(alloc, best, &[('b', 0), ('a', 0)]));
    assert!(rt; asks(alloc, keep, &[('k', 0), ('b', 0)]));
}

/// Whether the first question is one edit that sets the cost of a column of this name.
fn sets_cost(alloc: Global, text: &[u8], name: &str) -> bool {
    let questions = match questions(alloc, text) {
        Ok(questions) => questions,
        Err(_) => return false,
    };
    match questions.as_slice() {
        [Question::Ask(edits)] => match edits.as_slice() {
            [edit] => is_cost(&edit.datum, name) && is_set(edit.change),
            _ => false,
        },
        _ => false,
    }
}

/// Whether a datum is the cost of a column of this name.
fn is_cost(datum: &Datum, name: &str) -> bool {
    match datum {
        Datum::Cost { column } => column.as_str() == name,
        _ => false,
    }
}

/// Whether a number is to be set.
fn is_set(change: Change) -> bool {
    match change {
        Change::Set(_) => true,
        Change::Add(_) => false,
    }
}

#[test]
fn an_edit_of_a_cost(rt: HostRuntime) {
    let alloc = rt.alloc();
    assert!(rt; sets_cost(alloc, b"bound\n cost x.1 set -2.50\nend", "x.1"));
    assert!(rt; !sets_cost(alloc, b"bound\n cost x.1 add -2.50\nend", "x.1"));
}

/// A sweep as a letter, its interval or its steps, and how many directions it has.
fn sweep_code(sweep: &Sweep) -> (char, i64, i64, usize) {
    match sweep {
        Sweep::Cost { from, to, dir } => ('c', *from, *to, dir.as_slice().len()),
        Sweep::Rows { steps, dir } => ('r', 0, i64::from(*steps), dir.as_slice().len()),
    }
}

/// Whether a text is a sweep with this code.
fn moves(alloc: Global, text: &[u8], code: (char, i64, i64, usize)) -> bool {
    match sweep(alloc, text) {
        Ok(sweep) => sweep_code(&sweep) == code,
        Err(_) => false,
    }
}

#[test]
fn sweeps_of_files(rt: HostRuntime) {
    let alloc = rt.alloc();
    assert!(rt;
        moves(
            alloc,
            b"cost -2 2\n x 1\n\ty -1\nend 4\nend",
            ('c', -2, 2, 3)
        )
    );
    assert!(rt; moves(alloc, b"cost -0 1000000\nend\n\n *\n", ('c', 0, 1000000, 0)));
    assert!(rt;
        moves(
            alloc,
            b"rows 8\r\nhigh r1 1\r\nlow r1 -0\r\nend\r\n",
            ('r', 0, 8, 2)
        )
    );
    assert!(rt;
        moves(
            alloc,
            b"rows 0\nhigh r1 1e400\nhigh r2 0\nend",
            ('r', 0, 0, 2)
        )
    );
}
