//! The files of the machine.

ghost use Rattle.std.specs.Prelude.{◌≡◌, is_some, false, None, ℕ, Option, List};
ghost use Rattle.std.proofs.Common.{arith};
ghost use Rattle.ips_io.specs.Causes.{shown_count};

use crate::reading::PIECE;
use crate::{Failed, Shelf};
use std::fs;
use std::io::Read;
use std::rt::Files;

/// The files of the machine. Neither their content nor the names that were begun are known. A folder named as a file fails when it is
/// read or saved.
#[derive(Drop)]
pub struct FileShelf<R: Files + Drop> {
    rt: R,
    file: Option<R::File>,
    faults: u64,
    save_faults: u64,
}

/// A shelf of the files of the machine, with no file begun and no failure counted.
pub fn file_shelf<R: Files + Drop>(rt: R) -> FileShelf<R>
    ensures begun { is_some result.file ≡ false }
    ensures faults { result.faults ≡ 0 }
    ensures save_faults { result.save_faults ≡ 0 }
{
    FileShelf {
        rt,
        file: None,
        faults: 0,
        save_faults: 0,
    }
}

impl<R: Files + Drop> Shelf for FileShelf<R> {
    ghost begun = { λ s. is_some s.file };

    ghost begun_names = { λ s. None };

    ghost files = { λ s. None };

    ghost left = { λ s. None };

    ghost faults = { λ s. shown_count s.faults };

    ghost save_faults = { λ s. shown_count s.save_faults };

    ghost faults_limit = { λ s. Prim.omega arith };

    ghost save_faults_limit = { λ s. Prim.omega arith };

    fn begin(&mut self, name: &str) -> Result<(), Failed> {
        match fs::open(&self.rt, name) {
            Ok(file) => {
                self.file = Some(file);
                Ok(())
            }
            Err(_) => {
                self.file = None;
                self.faults = self.faults.saturating_add(1);
                Err(Failed)
            }
        }
    }

    fn read(&mut self, into: &mut [u8]) -> Result<usize, Failed> {
        match &mut self.file {
            Some(file) => {
                let mut piece = [0u8; PIECE];
                let most = into.len().min(PIECE);
                match file.read(&mut piece[..most]) {
                    Ok(n) => {
                        into[..n].copy_from_slice(&piece[..n]);
                        Ok(n)
                    }
                    Err(_) => {
                        self.faults = self.faults.saturating_add(1);
                        Err(Failed)
                    }
                }
            }
            None => unreachable!(),
        }
    }

    fn save(&mut self, name: &str, bytes: &[u8]) -> Result<(), Failed> {
        self.file = None;
        match fs::write(&self.rt, name, bytes) {
            Ok(()) => Ok(()),
            Err(_) => {
                self.save_faults = self.save_faults.saturating_add(1);
                Err(Failed)
            }
        }
    }
}
