//! The file of a sweep's proof: it is read to its end, and its sweep is held where that fits the model; or it is refused.

ghost use Rattle.std.specs.Prelude.{◌≡◌, ◌≢◌, ◌∷◌, [], codes};
ghost use Rattle.ips_io.specs.Causes.{Rose};
ghost use Rattle.ips_io.specs.Files.{Began, Keeps};
ghost use Rattle.ipsens_core.specs.Internal.Files.{IsLineOf};
ghost use Rattle.ipsens_core.specs.Internal.SweepProofFiles.{IsRowsFile, IsRowsText};
ghost use Rattle.ipsens_core.specs.Refusals.{refused};
ghost use Rattle.ipsens_core.specs.TreeRefusals.{fault_text};

use crate::files::{Unread, read_file, refused_with};
use crate::tree_refusals::fault_line;
use crate::trees::LONGEST_TREE;
use ip_defs::Name;
use ip_model::IntModel;
use ips_io::Shelf;
use std::alloc::Global;
use sweep_proof::{RowSweep, row_sweep_fits};
use tree_format::{TreeError, decode_rows};

/// What is printed for the file of a sweep's proof that is too long.
const PROOF_TOO_LONG: &str = "refused proof too long\n";

/// What is printed for a sweep's proof that does not fit the model.
const NO_FIT: &str = "refused proof shape\n";

/// The refusal of bytes for their first fault.
fn refused_bytes(alloc: Global, fault: TreeError) -> Unread
    ensures { IsLineOf (refused (codes "proof") (fault_text fault)) result }
{
    match fault_line(alloc, "proof", fault) {
        Ok(line) => Unread::Refused(line.into_bytes()),
        Err(_) => Unread::Memory,
    }
}

/// The sweep that bytes spell, where it fits the model, or their refusal.
fn understand(alloc: Global, model: &IntModel, bytes: &[u8]) -> Result<RowSweep, Unread>
    ensures { IsRowsText model.now bytes.now result }
{
    match decode_rows(alloc, bytes) {
        Ok(sweep) => {
            if row_sweep_fits(model, &sweep) {
                Ok(sweep)
            } else {
                Err(refused_with(alloc, NO_FIT))
            }
        }
        Err(TreeError::Memory) => Err(Unread::Memory),
        Err(fault) => Err(refused_bytes(alloc, fault)),
    }
}

/// Reads the file of a sweep's proof: its sweep, where that fits the model, or the text of its refusal. `ReadFault` comes exactly where
/// the shelf counted a failure.
pub fn read_rows<S: Shelf>(
    alloc: Global,
    model: &IntModel,
    name: &Name,
    shelf: &mut S,
) -> Result<RowSweep, Unread>
    ensures file { IsRowsFile model.now (S.files shelf.old) (S.files shelf.new) name.now result }
    ensures keeps { Keeps (S.files shelf.old) (S.files shelf.new) }
    ensures names { Began (S.begun_names shelf.old) (S.begun_names shelf.new) (name.now ∷ []) }
    ensures saves { S.save_faults shelf.new ≡ S.save_faults shelf.old }
    ensures fault { result ≡ Err Unread.ReadFault → Rose (S.faults shelf.old) (S.faults shelf.new) }
    ensures no_fault { result ≢ Err Unread.ReadFault → S.faults shelf.new ≡ S.faults shelf.old }
{
    match read_file(alloc, name, LONGEST_TREE, PROOF_TOO_LONG, shelf) {
        Ok(bytes) => understand(alloc, model, bytes.as_slice()),
        Err(unread) => Err(unread),
    }
}
