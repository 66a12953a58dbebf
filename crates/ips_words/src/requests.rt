//! What the words of a command line ask for.

use ip_defs::Name;

/// What the words of a command line ask for.
#[derive(Debug, Drop)]
pub enum Request {
    /// Solve a model, and save the proof where a tree file is named.
    Solve {
        model: Name,
        tree: Option<Name>,
        nodes: u32,
        depth: u32,
        pivots: u32,
        digits: u8,
        box_side: Option<i64>,
    },
    /// Check a saved proof of a model.
    Check {
        model: Name,
        tree: Name,
        digits: u8,
        box_side: Option<i64>,
    },
    /// Answer questions on a model by a saved proof.
    Ask {
        model: Name,
        tree: Name,
        questions: Name,
        digits: u8,
        box_side: Option<i64>,
    },
    /// Solve a family of models, and save the proof where a file is named.
    Sweep {
        model: Name,
        sweep: Name,
        proof: Option<Name>,
        nodes: u32,
        depth: u32,
        pivots: u32,
        digits: u8,
        box_side: Option<i64>,
    },
    /// Check a saved proof of a family of models.
    Recheck {
        model: Name,
        sweep: Name,
        proof: Name,
        digits: u8,
        box_side: Option<i64>,
    },
    /// Print the canonical text of a model.
    Show {
        model: Name,
        digits: u8,
        box_side: Option<i64>,
    },
    /// Run a trial by its number.
    Trial {
        number: u32,
    },
}

/// Why words are not taken as a request.
#[derive(Clone, Copy, Debug, PartialEq, Eq)]
pub enum WordsError {
    /// They are not plain.
    Usage,
    /// Out of memory.
    Memory,
}
