//! Why the desk refuses.

ghost use Rattle.std.specs.Prelude.{◌≡◌};
ghost use Rattle.desk.specs.Refusals.{refusal_of_error, refusal_of_fault, refusal_of_host};
ghost use Rattle.desk.specs.declared.refusal.Refusal.TheVariants as refusal;

use desk_store::KeeperError;
use grants::{Denial, HostFault};
use messages::MessageFault;
use std::alloc::{AllocError, AllocFailed};
use std::error::Error;
use std::fmt;
use sudo_words::NoMemory;

/// Why the desk refuses. A refusal is shown as its code and name.
#[derive(Clone, Copy, Debug, PartialEq, Eq)]
pub enum Refusal {
    /// The roster has no such relay.
    UnknownRelay,
    /// The roster has no such host.
    UnknownHost,
    /// A body has more than 16,384 bytes.
    TooLong,
    /// A body is not canonical JSON with whole numbers.
    NotCanonical,
    /// A body is canonical JSON, but not a message: a member is wrong, missing or too many.
    BadField,
    /// The roster does not admit the message.
    Denied(Denial),
    /// A host's file would have more than 8,192 lines beside the base's.
    TooManyRules,
    /// The keeper has a desk of another roster's text.
    RosterChanged,
    /// The keeper has something under a desk's names that is not a desk.
    NotADesk,
    /// The keeper has a desk of an older form, which is to be rebuilt.
    OldSchema,
    /// The keeper's storage failed.
    Storage,
    /// Memory ran out: a growth was refused.
    NoMemory,
    /// The base policy is past the desk's limits.
    BaseTooLarge,
}

impl fmt::Display for Refusal {
    ghost use Rattle.std.specs.Prelude.{Some};
    ghost use Rattle.desk.specs.Refusals.{refusal_text};

    ghost output = { λ r. Some (refusal_text r) };

    fn fmt<W: fmt::Write>(&self, f: &mut fmt::Formatter<W>) -> fmt::Result {
        let line = self.line();
        f.write_str(line.strip_suffix('\n').unwrap_or(line))
    }
}

impl Error for Refusal {}

impl Refusal {
    ghost use Rattle.std.specs.Prelude.{◌++◌, ◌∷◌, []};
    ghost use Rattle.sudo_words.specs.Bytes.{newline};
    ghost use Rattle.desk.specs.Refusals.{refusal_text};

    /// The refusal's code and name, and a newline. A response can say this line where memory ran
    /// out.
    pub fn line(self) -> &'static str
        ensures { result.now ≡ refusal_text self ++ newline ∷ [] }
    {
        match self {
            Refusal::UnknownRelay => "P1 UnknownRelay\n",
            Refusal::UnknownHost => "P2 UnknownHost\n",
            Refusal::TooLong => MessageFault::TooLong.line(),
            Refusal::NotCanonical => MessageFault::NotCanonical.line(),
            Refusal::BadField => MessageFault::BadField.line(),
            Refusal::Denied(denial) => denial.line(),
            Refusal::TooManyRules => HostFault::TooManyRules.line(),
            Refusal::RosterChanged => "K1 RosterChanged\n",
            Refusal::NotADesk => "K2 NotADesk\n",
            Refusal::OldSchema => "K3 OldSchema\n",
            Refusal::Storage => "K4 Storage\n",
            Refusal::NoMemory => "K5 NoMemory\n",
            Refusal::BaseTooLarge => "K6 BaseTooLarge\n",
        }
    }
}

impl From<MessageFault> for Refusal {
    ghost from_gives = { λ fault e. e ≡ refusal_of_fault fault };

    fn from(fault: MessageFault) -> Refusal {
        match fault {
            MessageFault::TooLong => Refusal::TooLong,
            MessageFault::NotCanonical => Refusal::NotCanonical,
            MessageFault::BadField => Refusal::BadField,
            MessageFault::NoMemory => Refusal::NoMemory,
        }
    }
}

impl From<Denial> for Refusal {
    ghost from_gives = { λ denial e. e ≡ refusal.Denied denial };

    fn from(denial: Denial) -> Refusal {
        Refusal::Denied(denial)
    }
}

impl From<HostFault> for Refusal {
    ghost from_gives = { λ fault e. e ≡ refusal_of_host fault };

    fn from(fault: HostFault) -> Refusal {
        match fault {
            HostFault::TooManyRules => Refusal::TooManyRules,
            HostFault::NoMemory => Refusal::NoMemory,
        }
    }
}

impl From<KeeperError> for Refusal {
    ghost from_gives = { λ error e. e ≡ refusal_of_error error };

    fn from(error: KeeperError) -> Refusal {
        match error {
            KeeperError::NoMemory => Refusal::NoMemory,
            KeeperError::Storage => Refusal::Storage,
        }
    }
}

impl From<AllocError> for Refusal {
    ghost from_gives = { λ _ e. e ≡ refusal.NoMemory };

    fn from(_e: AllocError) -> Refusal {
        Refusal::NoMemory
    }
}

impl<T: Drop> From<AllocFailed<T>> for Refusal {
    ghost from_gives = { λ _ e. e ≡ refusal.NoMemory };

    fn from(_e: AllocFailed<T>) -> Refusal {
        Refusal::NoMemory
    }
}

impl From<NoMemory> for Refusal {
    ghost from_gives = { λ _ e. e ≡ refusal.NoMemory };

    fn from(_e: NoMemory) -> Refusal {
        Refusal::NoMemory
    }
}
