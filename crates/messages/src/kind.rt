//! The kinds of verdicts.

ghost use Rattle.std.specs.Prelude.{◌≡◌, IfSome, Some};
ghost use Rattle.messages.specs.Wire.{kind_text};
ghost use Rattle.messages.specs.declared.kind.VerdictKind.{VerdictKind as AnyKind};

/// What a verdict does to a request.
#[derive(Clone, Copy, Debug, PartialEq, Eq)]
pub enum VerdictKind {
    /// The verdict approves the request, which may need further approvals.
    Approve,
    /// The verdict turns the request down.
    Refuse,
    /// The verdict takes back what was granted.
    Revoke,
}

impl VerdictKind {
    /// The word for the kind, as a message's text has it.
    pub fn word(self) -> &'static str
        ensures { result.now ≡ kind_text self }
    {
        match self {
            VerdictKind::Approve => "approve",
            VerdictKind::Refuse => "refuse",
            VerdictKind::Revoke => "revoke",
        }
    }

    /// The kind that has this word, if one has.
    pub fn of_word(word: &[u8]) -> Option<VerdictKind>
        ensures found { IfSome result (λ kind. word.now ≡ kind_text kind) }
        ensures only { (kind : AnyKind) → word.now ≡ kind_text kind → result ≡ Some kind }
    {
        if word == VerdictKind::Approve.word().as_bytes() {
            return Some(VerdictKind::Approve);
        }
        if word == VerdictKind::Refuse.word().as_bytes() {
            return Some(VerdictKind::Refuse);
        }
        if word == VerdictKind::Revoke.word().as_bytes() {
            return Some(VerdictKind::Revoke);
        }
        None
    }
}
