//! The model files of these tests.

/// Minimize -5a - 4b - 3c subject to three rows; the optimal point is (2, 0, 1).
pub const THREE_ROWS: &str = "NAME example\n\
    ROWS\n N cost\n L r1\n L r2\n L r3\n\
    COLUMNS\n M 'MARKER' 'INTORG'\n a cost -5 r1 2\n a r2 4 r3 3\n b cost -4 r1 3\n b r2 1 r3 4\n c cost -3 r1 1\n c r2 2 r3 2\n \
    M 'MARKER' 'INTEND'\n\
    RHS\n RHS r1 5 r2 11\n RHS r3 8\n\
    BOUNDS\n UP BND a 10\n UP BND b 10\n UP BND c 10\n\
    ENDATA\n";

/// What is written of an optimum of the three rows.
pub const THREE_ROWS_ANSWER: &str =
    "optimum -13\nvalue a 2\nvalue b 0\nvalue c 1\nnodes 1\nskipped 0\n";

/// An even number that is to be odd, over the points of a square.
pub const ODD: &str = "ROWS\n N cost\n E e\n\
    COLUMNS\n M 'MARKER' 'INTORG'\n x e 2\n y e -2\n M 'MARKER' 'INTEND'\n\
    RHS\n RHS e 1\n\
    BOUNDS\n BV BND x\n BV BND y\n\
    ENDATA\n";

/// A column whose bounds cross.
pub const EMPTY_COLUMN: &str = "ROWS\n N cost\n\
    COLUMNS\n M 'MARKER' 'INTORG'\n x cost 1\n M 'MARKER' 'INTEND'\n\
    BOUNDS\n LO BND x 5\n UP BND x 3\n\
    ENDATA\n";

/// A small model of 80 bytes, with a comment at its end that no line end closes.
pub const SMALL: &str =
    "ROWS\n N cost\n L r1\nCOLUMNS\n x cost -1 r1 2.5\nRHS\n r1 7\nBOUNDS\n UI x 4\nENDATA\n* e";

/// Its canonical text.
pub const SMALL_SHOWN: &str = "NAME\nROWS\n N cost\n L r1\n\
    COLUMNS\n M 'MARKER' 'INTORG'\n x cost -1\n x r1 2.5\n M 'MARKER' 'INTEND'\n\
    RHS\n RHS r1 7\nRANGES\n\
    BOUNDS\n LO BND x 0\n UP BND x 4\n\
    ENDATA\n";
