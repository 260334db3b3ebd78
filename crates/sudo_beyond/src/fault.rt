//! Why two policies were not compared.

ghost use Rattle.std.specs.Prelude.{◌≡◌};
ghost use Rattle.sudo_beyond.specs.declared.fault.BeyondFault.TheVariants as fault;

use std::error::Error;
use std::fmt;
use sudo_words::NoMemory;

/// Why two policies were not compared. It is shown as its code and name.
#[derive(Clone, Copy, Debug, PartialEq, Eq)]
pub enum BeyondFault {
    /// There are more than 1,000,000 cases.
    TooManyCases,
    /// Memory ran out.
    NoMemory,
}

impl fmt::Display for BeyondFault {
    ghost use Rattle.std.specs.Prelude.{Some};
    ghost use Rattle.sudo_beyond.specs.Faults.{beyond_fault_text};

    ghost output = { λ e. Some (beyond_fault_text e) };

    fn fmt<W: fmt::Write>(&self, f: &mut fmt::Formatter<W>) -> fmt::Result {
        f.write_str(match self {
            BeyondFault::TooManyCases => "B1 TooManyCases",
            BeyondFault::NoMemory => "B2 NoMemory",
        })
    }
}

impl Error for BeyondFault {}

impl From<NoMemory> for BeyondFault {
    ghost from_gives = { λ _ e. e ≡ fault.NoMemory };

    fn from(_e: NoMemory) -> BeyondFault {
        BeyondFault::NoMemory
    }
}
