//! Identities of polynomials, proved by computation.
//!
//! Apart from the definition of a sum, the crate holds proofs alone: laws of products of whole numbers (`Products`), commutative
//! rings (`Rings`), a normaliser that decides identities in any such ring (`Normal`, and `Named` for one to eight unknowns by
//! name), and laws of sums in a ring (`Sums`). `Trials` tries the normaliser on larger identities.
#![tactic(auto)]
