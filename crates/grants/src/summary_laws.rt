//! A law of summaries, the contract of a function that does nothing.

ghost use Rattle.std.specs.Prelude.{◌≡◌, List, false};
ghost use Rattle.messages.specs.Names.{SameName};
ghost use Rattle.messages.specs.declared.message.Message.{Message};
ghost use Rattle.grants.specs.Summaries.{Kept, StandsFor};

/// What a summary of a name keeps is determined by the set that it stands for, in whatever order
/// the messages came and however often, except for which of two requests it keeps if the name is
/// disputed.
pub fn one_summary()
    ensures disputed { (set : List Message) (a b : Kept) → StandsFor set a
        → StandsFor set b → SameName a.request b.request → a.is_disputed ≡ b.is_disputed }
    ensures marks { (set : List Message) (a b : Kept) →
        StandsFor set a → StandsFor set b → SameName a.request b.request →
        (a.approvals ≡ b.approvals) × (a.refusals ≡ b.refusals) × (a.revocations ≡ b.revocations) }
    ensures alone { (set : List Message) (a b : Kept) → StandsFor set a → StandsFor set b
        → SameName a.request b.request → a.is_disputed ≡ false → a ≡ b }
{}
