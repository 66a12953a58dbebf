//! The laws, each as the contract of a call that does nothing.

ghost use Rattle.text_laws.specs.ReadBack.{CanonicalTextsAreReadBack, CanonicalTextsHaveNoFault};
ghost use Rattle.text_laws.specs.ReadBack.{ModelsReadAreCanonical, ModelsReadArePrintable, ModelsReadArePrintedAndReadBack};

/// The canonical text of a program has no fault, and its model is the program itself: for each printable program within its limits
/// whose names are UTF-8 and differ, and whose decimals are the least ones that write its amounts, and no fewer than the digits asked
/// for.
pub fn canonical_texts_are_read_back()
    ensures no_fault { CanonicalTextsHaveNoFault }
    ensures same_model { CanonicalTextsAreReadBack }
{}

/// A program that was read of a text without a fault is printable unless a column is named 'MARKER' or a name has a carriage return in
/// it. Where it is printable it meets what the law above asks for: printed, and read again with the same digits and any box side, it is
/// the same program.
pub fn models_read_are_canonical()
    ensures printable { ModelsReadArePrintable }
    ensures canonical { ModelsReadAreCanonical }
    ensures read_back { ModelsReadArePrintedAndReadBack }
{}
