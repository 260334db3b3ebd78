//! What a policy answers.

ghost use Rattle.std.specs.Prelude.{◌≡◌};
ghost use Rattle.sudo_decide.specs.Decision.{decision_of};

use std::fmt;
use sudo_policy::Tags;

/// The answer to an invocation.
///
/// A decision is printed as `deny`, `allow` or `allow nopasswd`.
#[derive(Clone, Copy, Debug, PartialEq, Eq)]
pub enum Decision {
    /// The command may not run.
    Deny,
    /// The command may run, once the user has given a password.
    Allow,
    /// The command may run, and no password is asked for.
    AllowNoPassword,
}

impl Decision {
    /// What a rule with these tags decides with this answer.
    pub fn of(tags: Tags, answer: bool) -> Decision
        ensures { result ≡ decision_of tags answer }
    {
        if !answer {
            Decision::Deny
        } else if tags.nopasswd {
            Decision::AllowNoPassword
        } else {
            Decision::Allow
        }
    }
}

impl fmt::Display for Decision {
    ghost use Rattle.std.specs.Prelude.{Some};
    ghost use Rattle.sudo_decide.specs.Decision.{decision_text};

    ghost output = { λ d. Some (decision_text d) };

    fn fmt<W: fmt::Write>(&self, f: &mut fmt::Formatter<W>) -> fmt::Result {
        f.write_str(match self {
            Decision::Deny => "deny",
            Decision::Allow => "allow",
            Decision::AllowNoPassword => "allow nopasswd",
        })
    }
}
