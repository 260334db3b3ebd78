//! Laws of what the answer of `beyond` tells, each the contract of a function that does nothing.

ghost use Rattle.std.specs.Prelude.{◌≡◌, ◌↔◌, ℕ, List, codes};
ghost use Rattle.sudo_policy.specs.Spelling.{Spells};
ghost use Rattle.sudo_policy.specs.declared.entry.Entry.{Entry};
ghost use Rattle.sudo_decide.specs.declared.invocation.Invocation.{Invocation};
ghost use Rattle.sudo_beyond.specs.Beyond.{IsInvocation, SomethingBeyond};
ghost use Rattle.sudo_decide.specs.declared.scope.Scope.{Scope};
ghost use Rattle.desk_commands.specs.Comparing.{ComparesFiles, case_text};
ghost use Rattle.desk_args.specs.declared.status.ExitStatus.{ExitStatus};
ghost use Rattle.desk_args.specs.declared.status.ExitStatus.TheVariants.{Done};

/// Two cases with the same line are the same case, and no case has the line `none`.
pub fn case_tells()
    ensures one { (i j : Invocation) → IsInvocation i
        → IsInvocation j → case_text i ≡ case_text j → i ≡ j }
    ensures not_none { (i : Invocation) → IsInvocation i → case_text i ≡ codes "none" → ⊥ }
{}

/// For files that spell two policies, the answer is `none` exactly where nothing of the first lies
/// beyond the second. The same holds for the status `Done`.
pub fn none_tells()
    ensures text { (scope : Scope) (a_file b_file : List ℕ) (a b : List Entry) (status : ExitStatus)
        (text : List ℕ) → ComparesFiles scope a_file b_file status text → Spells a_file a
        → Spells b_file b → (text ≡ codes "none\n") ↔ (SomethingBeyond scope a b → ⊥) }
    ensures status { (scope : Scope) (a_file b_file : List ℕ) (a b : List Entry)
        (status : ExitStatus) (text : List ℕ) → ComparesFiles scope a_file b_file status text
        → Spells a_file a → Spells b_file b → (status ≡ Done) ↔ (SomethingBeyond scope a b → ⊥) }
{}
