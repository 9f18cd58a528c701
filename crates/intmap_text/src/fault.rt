//! Why a session ends before its answers are written.
ghost use Rattle.std.specs.Prelude.{◌≡◌, OnOk};
ghost use Rattle.std.specs.Io.KnownBytes.{Appends};
ghost use Rattle.intmap_text.specs.declared.fault.Fault.TheVariants.{Memory};
ghost use Rattle.intmap_text.specs.Faults.{status_of, report_of};

use intmap::Cause;
use std::alloc::{AllocError, AllocFailed};
use std::io::{self, Write};

/// Why a session ends early.
#[derive(Clone, Copy)]
pub enum Fault {
    /// The line with this number, counted from 1, is not a command.
    NotACommand(u128),
    /// An allocation failed.
    Memory,
    /// The input could not be read to its end.
    Input,
    /// The output could not be written or flushed.
    Output,
}

impl Fault {
    /// The exit status.
    pub fn status(self) -> u8
        ensures { result ≡ status_of self }
    {
        match self {
            Fault::NotACommand(_) => 2,
            Fault::Memory => 3,
            Fault::Input | Fault::Output => 4,
        }
    }

    /// Writes a line that says what happened, and flushes it.
    pub fn report<E: Write>(self, faults: &mut E) -> io::Result<()>
        ensures { OnOk result
            (Appends (E.contents faults.old) (E.contents faults.new) (report_of self)) }
    {
        self.write_to(faults)?;
        faults.flush()
    }

    /// Writes the line.
    fn write_to<E: Write>(self, faults: &mut E) -> io::Result<()>
        ensures { OnOk result
            (Appends (E.contents faults.old) (E.contents faults.new) (report_of self)) }
    {
        match self {
            Fault::NotACommand(number) => writeln!(faults, "line {number}: not a command"),
            Fault::Memory => faults.write_all(b"no memory\n"),
            Fault::Input => faults.write_all(b"input failed\n"),
            Fault::Output => faults.write_all(b"output failed\n"),
        }
    }
}

impl From<AllocError> for Fault {
    ghost from_gives = { λ _ fault. fault ≡ Memory };

    fn from(_error: AllocError) -> Fault {
        Fault::Memory
    }
}

impl<T: Drop> From<AllocFailed<T>> for Fault {
    ghost from_gives = { λ _ fault. fault ≡ Memory };

    fn from(_error: AllocFailed<T>) -> Fault {
        Fault::Memory
    }
}

impl From<Cause> for Fault {
    ghost from_gives = { λ _ fault. fault ≡ Memory };

    fn from(_cause: Cause) -> Fault {
        Fault::Memory
    }
}
