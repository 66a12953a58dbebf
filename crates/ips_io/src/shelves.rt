//! Shelves: files by name, whose failures are counted.

ghost use Rattle.std.specs.Prelude.{◌≡◌, ◌<◌, ◌≤◌, ◌-◌, ◌^◌, ◌∷◌, [], ℕ, Bool, List, Option, true, false, is_ok, length, IfOk, OnOk, OnErr};
ghost use Rattle.ips_io.specs.Files.{Began, Files, Keeps, KeepsOthers, Names};
ghost use Rattle.ips_io.specs.Causes.{HasCause};
ghost use Rattle.ips_io.specs.Shelves.{BecomesUnknown, Begins, FillsFront, IsWhole, Moves};

/// A failure of the outside. The count of failures of that shelf or sink has risen by one, or stands at its end.
#[derive(Clone, Copy, Debug, PartialEq, Eq)]
pub struct Failed;

/// Files by name: one at a time is begun and read piece by piece, and a file is saved whole. A call that succeeds leaves the counts of
/// failures as they were, and one that fails raises its count by one, up to 2^64 - 1.
pub trait Shelf {
    /// Whether a file is begun.
    ghost begun: { Self → Bool };

    /// The names that were begun so far, in order, where they are known.
    ghost begun_names: { Self → Option Names };

    /// The table of files, where it is known.
    ghost files: { Self → Option Files };

    /// The bytes that the begun file has still to give, where they are known.
    ghost left: { Self → Option (List ℕ) };

    /// The failures so far of `begin` and `read`.
    ghost faults: { Self → ℕ };

    /// The failures so far of `save`.
    ghost save_faults: { Self → ℕ };

    /// Begins the file of a name, from its start, in place of one that was begun.
    fn begin(&mut self, name: &str) -> Result<(), Failed>
        ensures begun { begun self.new ≡ is_ok result }
        ensures names { Began (begun_names self.old) (begun_names self.new) (name.now ∷ []) }
        ensures content { OnOk result (Begins (files self.old) (files self.new) (left self.new) name.now) }
        ensures err { OnErr result (Keeps (files self.old) (files self.new)) }
        ensures unknown { BecomesUnknown (files self.old) (files self.new) name.now }
        ensures cause { HasCause (faults self.old) (faults self.new) result }
        ensures saves { save_faults self.new ≡ save_faults self.old };

    /// Moves the next bytes of the begun file into the front of a buffer, and gives their number: 0 only at the end of the file. The
    /// buffer is as before behind them, and wholly where the read fails.
    fn read(&mut self, into: &mut [u8]) -> Result<usize, Failed>
        requires begun { begun self.old ≡ true }
        requires room { 0 < length into.old }
        ensures begun { begun self.new ≡ true }
        ensures names { begun_names self.new ≡ begun_names self.old }
        ensures files { files self.new ≡ files self.old }
        ensures bound { IfOk result (λ n. n ≤ length into.new) }
        ensures bytes { IfOk result (λ n. Moves (left self.old) (left self.new) n into.new) }
        ensures buffer { FillsFront into.old into.new result }
        ensures err { OnErr result (left self.new ≡ left self.old) }
        ensures cause { HasCause (faults self.old) (faults self.new) result }
        ensures saves { save_faults self.new ≡ save_faults self.old };

    /// Makes a file of a name and its bytes, in place of one of that name. No file is begun afterwards. Where it fails, nothing
    /// is known of the file of that name.
    fn save(&mut self, name: &str, bytes: &[u8]) -> Result<(), Failed>
        ensures begun { begun self.new ≡ false }
        ensures names { begun_names self.new ≡ begun_names self.old }
        ensures others { KeepsOthers (files self.old) (files self.new) name.now }
        ensures saved { OnOk result (IsWhole (files self.new) name.now bytes.now) }
        ensures cause { HasCause (save_faults self.old) (save_faults self.new) result }
        ensures faults { faults self.new ≡ faults self.old };

    /// The count of failed `begin`s and `read`s is at most 2^64 - 1.
    ghost faults_limit: { (s : Self) → faults s ≤ 2 ^ 64 - 1 };

    /// The count of failed `save`s is at most 2^64 - 1.
    ghost save_faults_limit: { (s : Self) → save_faults s ≤ 2 ^ 64 - 1 };
}
