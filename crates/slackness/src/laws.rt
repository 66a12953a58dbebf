//! The law of complementary slackness, as the contract of a call.
ghost use Rattle.slackness.specs.Laws.{ComplementarySlackness};

/// Complementary slackness: where a point lies in a box and within the sides of the rows, and stands at the sides that a certificate
/// pays, the divisor times its cost is the dual value of the certificate.
pub fn complementary_slackness()
    ensures { ComplementarySlackness }
{}
