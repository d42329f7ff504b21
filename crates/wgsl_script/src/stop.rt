//! Why a line is not carried out.

ghost use Rattle.std.specs.Prelude.{◌≡◌};
ghost use Rattle.wgsl_session.specs.declared.call.Fault.TheVariants as faults;
ghost use Rattle.wgsl_script.specs.declared.stop.Stop.TheVariants as stops;

use std::alloc::AllocError;
use wgsl_scalar::Error;
use wgsl_session::Fault;

/// Why a line is not carried out.
#[derive(Debug, PartialEq, Eq, Drop)]
pub(crate) enum Stop {
    /// The line is none of the grammar.
    BadLine,
    /// The bytes lay out no value of the type.
    NoValue,
    /// The call is refused.
    Refused(Fault),
    /// Memory could not be had outside of a call: the run ends.
    Memory,
}

impl From<Fault> for Stop {
    ghost from_gives = { λ fault stop. stop ≡ stops.Refused fault };

    fn from(fault: Fault) -> Stop {
        Stop::Refused(fault)
    }
}

impl From<Error> for Stop {
    ghost from_gives = { λ error stop. stop ≡ stops.Refused (faults.Of error) };

    fn from(error: Error) -> Stop {
        Stop::Refused(Fault::Of(error))
    }
}

impl From<AllocError> for Stop {
    ghost from_gives = { λ _ stop. stop ≡ stops.Memory };

    fn from(_error: AllocError) -> Stop {
        Stop::Memory
    }
}
