//! How the program ends.

ghost use Rattle.std.specs.Prelude.{◌≡◌};
ghost use Rattle.wgsl_report.specs.Endings.{end_status, worse_of};

/// How the program ends.
#[derive(Clone, Copy, Debug, PartialEq, Eq)]
pub enum End {
    Well,
    /// Something is wrong in the source, or a name is asked for that has no layout there.
    Faults,
    /// The arguments ask for nothing that there is.
    Usage,
    /// Something cannot be read or written, or memory is wanting.
    Io,
}

impl End {
    /// The status that the program ends with.
    pub fn status(self) -> u8
        ensures { result ≡ end_status self }
    {
        match self {
            End::Well => 0,
            End::Faults => 1,
            End::Usage => 2,
            End::Io => 3,
        }
    }

    /// The worse of two ends.
    pub fn or_worse(self, other: End) -> End
        ensures { result ≡ worse_of self other }
    {
        if self.status() < other.status() {
            other
        } else {
            self
        }
    }
}
