//! Why a run ends early.

ghost use Rattle.std.specs.Prelude.{◌≡◌};
ghost use Rattle.wgsl_script.specs.Faults.{fault_status, fault_text};
ghost use Rattle.wgsl_script.specs.declared.fault.RunFault.TheVariants.{Memory};

use std::alloc::AllocError;

/// Why a run ends early.
#[derive(Debug, PartialEq, Eq, Drop)]
pub enum RunFault {
    /// A read failed or was interrupted; nothing was run.
    Read,
    /// A write failed, was interrupted or took nothing; no line behind that write was run.
    Write,
    /// The script has more than 1,048,576 bytes; nothing was run.
    TooLong,
    /// Memory could not be had outside of a call.
    Memory,
}

impl RunFault {
    /// The status that the program ends with.
    pub fn status(&self) -> u8
        ensures { result ≡ fault_status self.now }
    {
        match self {
            RunFault::Read | RunFault::Write => 1,
            RunFault::TooLong => 2,
            RunFault::Memory => 3,
        }
    }

    /// What the program prints behind its name.
    pub fn text(&self) -> &'static str
        ensures { result.now ≡ fault_text self.now }
    {
        match self {
            RunFault::Read => "read fault",
            RunFault::Write => "write fault",
            RunFault::TooLong => "input too long",
            RunFault::Memory => "out of memory",
        }
    }
}

impl From<AllocError> for RunFault {
    ghost from_gives = { λ _ fault. fault ≡ Memory };

    fn from(_error: AllocError) -> RunFault {
        RunFault::Memory
    }
}
