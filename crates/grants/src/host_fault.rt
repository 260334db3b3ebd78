//! Why a host gets no file.

ghost use Rattle.std.specs.Prelude.{◌≡◌};
ghost use Rattle.grants.specs.declared.host_fault.HostFault.TheVariants as fault;

use std::alloc::AllocError;
use std::error::Error;
use std::fmt;
use sudo_words::NoMemory;

/// Why a base and rules of grants give no policy for a host. It is shown as its code and name.
#[derive(Clone, Copy, Debug, PartialEq, Eq)]
pub enum HostFault {
    /// There are more than 8,192 rules beside the base's.
    TooManyRules,
    /// Memory ran out.
    NoMemory,
}

impl fmt::Display for HostFault {
    ghost use Rattle.std.specs.Prelude.{Some};
    ghost use Rattle.grants.specs.HostFaults.{host_fault_text};

    ghost output = { λ f. Some (host_fault_text f) };

    fn fmt<W: fmt::Write>(&self, f: &mut fmt::Formatter<W>) -> fmt::Result {
        let line = self.line();
        f.write_str(line.strip_suffix('\n').unwrap_or(line))
    }
}

impl Error for HostFault {}

impl HostFault {
    ghost use Rattle.std.specs.Prelude.{◌++◌, ◌∷◌, []};
    ghost use Rattle.sudo_words.specs.Bytes.{newline};
    ghost use Rattle.grants.specs.HostFaults.{host_fault_text};

    /// The fault's code and name, and a newline.
    pub fn line(self) -> &'static str
        ensures { result.now ≡ host_fault_text self ++ newline ∷ [] }
    {
        match self {
            HostFault::TooManyRules => "G1 TooManyRules\n",
            HostFault::NoMemory => "G2 NoMemory\n",
        }
    }
}

impl From<NoMemory> for HostFault {
    ghost from_gives = { λ _ e. e ≡ fault.NoMemory };

    fn from(_e: NoMemory) -> HostFault {
        HostFault::NoMemory
    }
}

impl From<AllocError> for HostFault {
    ghost from_gives = { λ _ e. e ≡ fault.NoMemory };

    fn from(_e: AllocError) -> HostFault {
        HostFault::NoMemory
    }
}
