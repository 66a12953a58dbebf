//! The tree file of a command that needs the whole tree: it is read to its end, and its proof is held.

ghost use Rattle.std.specs.Prelude.{◌≡◌, ◌≢◌, ◌∷◌, []};
ghost use Rattle.ips_io.specs.Causes.{Rose};
ghost use Rattle.ips_io.specs.Files.{Began, Keeps};
ghost use Rattle.ipsens_core.specs.Internal.ProofFiles.{IsDecoded, IsProofFile};

use crate::trees::LONGEST_TREE;
use ip_defs::Name;
use ip_model::IntModel;
use ips_io::{ReadError, Shelf, read_all};
use proof_tree::{Proof, fits_model};
use std::alloc::Global;
use tree_checker::{StreamError, TreeError};
use tree_format::decode;

/// The proof that bytes spell, where it fits the model, or why there is none.
fn decoded(
    alloc: Global,
    model: &IntModel,
    bytes: &[u8],
) -> Result<Result<Proof, StreamError>, ReadError>
    ensures { IsDecoded model.now bytes.now result }
{
    match decode(alloc, bytes) {
        Ok(proof) => match fits_model(model, &proof) {
            Ok(()) => Ok(Ok(proof)),
            Err(shape) => Ok(Err(StreamError::Shape(shape))),
        },
        Err(TreeError::Memory) => Err(ReadError::Memory),
        Err(fault) => Ok(Err(StreamError::Tree(fault))),
    }
}

/// Reads the tree file of a name: its proof, where that fits the model, or why there is none.
pub fn read_proof<S: Shelf>(
    alloc: Global,
    model: &IntModel,
    name: &Name,
    shelf: &mut S,
) -> Result<Result<Proof, StreamError>, ReadError>
    ensures file { IsProofFile model.now (S.files shelf.old) (S.files shelf.new) name.now result }
    ensures keeps { Keeps (S.files shelf.old) (S.files shelf.new) }
    ensures names { Began (S.begun_names shelf.old) (S.begun_names shelf.new) (name.now ∷ []) }
    ensures saves { S.save_faults shelf.new ≡ S.save_faults shelf.old }
    ensures fault { result ≡ Err ReadError.Fault → Rose (S.faults shelf.old) (S.faults shelf.new) }
    ensures no_fault { result ≢ Err ReadError.Fault → S.faults shelf.new ≡ S.faults shelf.old }
{
    match read_all(alloc, shelf, name.as_str(), LONGEST_TREE) {
        Ok(bytes) => decoded(alloc, model, bytes.as_slice()),
        Err(error) => Err(error),
    }
}
