//! The laws of tree files and of the files of row sweeps, each as the contract of a function that does nothing.
ghost use Rattle.tree_format.specs.Laws.{SpellingsAreRead, ReadingsAreSpelled, OneSpelling, FaultsStand};
ghost use Rattle.tree_format.specs.Orders.{PartsAreInOrder};
ghost use Rattle.tree_format.specs.RowLaws.{RowSpellingsAreRead, RowReadingsAreSpelled, OneRowSpelling, FittingSweepsAreWithin};

/// What spells a proof has no fault, and its parts are those of the proof.
pub fn spellings_are_read()
    ensures { SpellingsAreRead }
{}

/// Bytes without a fault spell a proof.
pub fn readings_are_spelled()
    ensures { ReadingsAreSpelled }
{}

/// No bytes spell two proofs, and no spelling begins another.
pub fn one_spelling()
    ensures { OneSpelling }
{}

/// The parts of all bytes are in order: the claim, its coordinates, and the parts of a tree in preorder, up to the first fault.
pub fn parts_are_in_order()
    ensures { PartsAreInOrder }
{}

/// A fault of bytes stands whatever follows them, unless it is that they end.
pub fn faults_stand()
    ensures { FaultsStand }
{}

/// What spells a row sweep has no fault.
pub fn row_spellings_are_read()
    ensures { RowSpellingsAreRead }
{}

/// Bytes without a fault spell a row sweep.
pub fn row_readings_are_spelled()
    ensures { RowReadingsAreSpelled }
{}

/// No bytes spell two row sweeps, and no spelling begins another.
pub fn one_row_spelling()
    ensures { OneRowSpelling }
{}

/// A row sweep that fits a model of at most 4096 columns is within the limits of its file.
pub fn fitting_sweeps_are_within()
    ensures { FittingSweepsAreWithin }
{}
