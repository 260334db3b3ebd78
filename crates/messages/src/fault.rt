//! Why a body is not a message.

ghost use Rattle.std.specs.Prelude.{◌≡◌};
ghost use Rattle.messages.specs.declared.fault.MessageFault.TheVariants as fault;

use std::alloc::{AllocError, AllocFailed};
use std::error::Error;
use std::fmt;
use sudo_words::NoMemory;

/// Why a body is not a message. It is shown as its code and name.
#[derive(Clone, Copy, Debug, PartialEq, Eq)]
pub enum MessageFault {
    /// The body has more than 16,384 bytes.
    TooLong,
    /// The bytes are not canonical JSON with whole numbers.
    NotCanonical,
    /// The bytes are canonical JSON, but not a message: a member is wrong, missing or one too many.
    BadField,
    /// Memory ran out.
    NoMemory,
}

impl fmt::Display for MessageFault {
    ghost use Rattle.std.specs.Prelude.{Some};
    ghost use Rattle.messages.specs.Faults.{message_fault_text};

    ghost output = { λ f. Some (message_fault_text f) };

    fn fmt<W: fmt::Write>(&self, f: &mut fmt::Formatter<W>) -> fmt::Result {
        let line = self.line();
        f.write_str(line.strip_suffix('\n').unwrap_or(line))
    }
}

impl Error for MessageFault {}

impl MessageFault {
    ghost use Rattle.std.specs.Prelude.{◌++◌, ◌∷◌, []};
    ghost use Rattle.sudo_words.specs.Bytes.{newline};
    ghost use Rattle.messages.specs.Faults.{message_fault_text};

    /// The fault's code and name, and a newline.
    pub fn line(self) -> &'static str
        ensures { result.now ≡ message_fault_text self ++ newline ∷ [] }
    {
        match self {
            MessageFault::TooLong => "M1 TooLong\n",
            MessageFault::NotCanonical => "M2 NotCanonical\n",
            MessageFault::BadField => "M3 BadField\n",
            MessageFault::NoMemory => "M4 NoMemory\n",
        }
    }
}

impl From<AllocError> for MessageFault {
    ghost from_gives = { λ _ e. e ≡ fault.NoMemory };

    fn from(_e: AllocError) -> MessageFault {
        MessageFault::NoMemory
    }
}

impl<T: Drop> From<AllocFailed<T>> for MessageFault {
    ghost from_gives = { λ _ e. e ≡ fault.NoMemory };

    fn from(_e: AllocFailed<T>) -> MessageFault {
        MessageFault::NoMemory
    }
}

impl From<NoMemory> for MessageFault {
    ghost from_gives = { λ _ e. e ≡ fault.NoMemory };

    fn from(_e: NoMemory) -> MessageFault {
        MessageFault::NoMemory
    }
}
