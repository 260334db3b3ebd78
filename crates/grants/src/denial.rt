//! Why a message is not admitted.

use std::error::Error;
use std::fmt;

/// Why the roster does not admit a message. It is shown as its code and name.
///
/// If several apply, the one with the lowest number is answered.
#[derive(Clone, Copy, Debug, PartialEq, Eq)]
pub enum Denial {
    /// The roster does not list the person who sends it or, for a verdict, the person who asked.
    UnknownPerson,
    /// The roster has no ceiling with the label.
    UnknownCeiling,
    /// The asker does not hold the duty that the ceiling requires for asking.
    NotAsker,
    /// A host is not among the ceiling's hosts.
    HostOutside,
    /// The target is not among the ceiling's targets.
    RunasOutside,
    /// A command lies inside no command of the ceiling.
    CommandOutside,
    /// The window is longer than the ceiling's longest.
    WindowTooLong,
    /// The window begins before the request was made, or ends before it begins.
    WindowBackwards,
}

impl fmt::Display for Denial {
    ghost use Rattle.std.specs.Prelude.{Some};
    ghost use Rattle.grants.specs.Denials.{denial_text};

    ghost output = { λ d. Some (denial_text d) };

    fn fmt<W: fmt::Write>(&self, f: &mut fmt::Formatter<W>) -> fmt::Result {
        let line = self.line();
        f.write_str(line.strip_suffix('\n').unwrap_or(line))
    }
}

impl Error for Denial {}

impl Denial {
    ghost use Rattle.std.specs.Prelude.{◌≡◌, ◌++◌, ◌∷◌, []};
    ghost use Rattle.sudo_words.specs.Bytes.{newline};
    ghost use Rattle.grants.specs.Denials.{denial_text};

    /// The denial's code and name, and a newline.
    pub fn line(self) -> &'static str
        ensures { result.now ≡ denial_text self ++ newline ∷ [] }
    {
        match self {
            Denial::UnknownPerson => "A1 UnknownPerson\n",
            Denial::UnknownCeiling => "A2 UnknownCeiling\n",
            Denial::NotAsker => "A3 NotAsker\n",
            Denial::HostOutside => "A4 HostOutside\n",
            Denial::RunasOutside => "A5 RunasOutside\n",
            Denial::CommandOutside => "A6 CommandOutside\n",
            Denial::WindowTooLong => "A7 WindowTooLong\n",
            Denial::WindowBackwards => "A8 WindowBackwards\n",
        }
    }
}
