//! Laws of what lies beyond a policy, each the contract of a function that does nothing.

ghost use Rattle.std.specs.Prelude.{◌≡◌, ◌⊎◌, ℕ, ◌≤◌, ◌++◌, true, false, Option};
ghost use Rattle.std.specs.Prelude.{List, [], ◌∷◌, length, Some, codes};
ghost use Rattle.std.specs.List.{AllByRecursion, Contains, flat_map};
ghost use Rattle.sudo_words.specs.Moment.{IsMoment};
ghost use Rattle.sudo_words.specs.Word.{is_name, is_host_name, is_keyword, is_file_path, is_arg};
ghost use Rattle.sudo_words.specs.declared.cmnd.ArgRule.{ArgRule as Ruled};
ghost use Rattle.sudo_words.specs.declared.cmnd.Cmnd.TheVariants.{Path as File};
ghost use Rattle.sudo_policy.specs.declared.entry.Entry.{Entry};
ghost use Rattle.sudo_policy.specs.declared.entry.Signed.{Signed};
ghost use Rattle.sudo_policy.specs.declared.entry.Item.{Item};
ghost use Rattle.sudo_policy.specs.declared.entry.CmndItem.{CmndItem};
ghost use Rattle.sudo_policy.specs.declared.tree.Definition.{Definition};
ghost use Rattle.sudo_policy.specs.Policy.{IsPolicy};
ghost use Rattle.sudo_policy.specs.Spelling.{Spells};
ghost use Rattle.sudo_policy.specs.Text.{Names, Text};
ghost use Rattle.sudo_decide.specs.declared.decision.Decision.{Decision};
ghost use Rattle.sudo_decide.specs.declared.decision.Decision.TheVariants.{Deny};
ghost use Rattle.sudo_decide.specs.declared.invocation.Invocation.{Invocation};
ghost use Rattle.sudo_decide.specs.Decision.{names_say, cmnd_answer, Decides};
ghost use Rattle.sudo_decide.specs.Kinds.{list_says_by};
ghost use Rattle.sudo_decide.specs.Reach.{rules_in};
ghost use Rattle.sudo_beyond.specs.declared.cases.Cases.{Cases};
ghost use Rattle.sudo_decide.specs.declared.scope.Scope.{Scope};
ghost use Rattle.sudo_beyond.specs.Standing.{names_in, cmnds_in, users, hosts, runas, commands};
ghost use Rattle.sudo_beyond.specs.Beyond.{Agrees, IsScope, IsInvocation, IsInScope};
ghost use Rattle.sudo_beyond.specs.Beyond.{IsGap, LiesBeyond, SomethingBeyond};
ghost use Rattle.sudo_beyond.specs.Answer.{AreFew, AreTooMany, IsFirstBeyond};
ghost use Rattle.sudo_beyond.specs.Cases.{AreCases, run_of, moment_after, product, invocations};
ghost use Rattle.sudo_beyond.specs.Worked.{all_except_bob, ann_alone, anything, runs_other};
ghost use Rattle.sudo_beyond.specs.Alike.{AlikeNames, AlikeCmnds, AlikeMoments, Alike};

// ---- items, lists and aliases

/// If each name in a list and in the definitions answers two names alike, then so does the list,
/// through aliases.
pub fn alike_names()
    ensures { (defs : List (Definition (Item (List ℕ)))) (list : Names) (x y : List ℕ) →
        AlikeNames (flat_map (λ d. names_in d.list) defs) x y → AlikeNames (names_in list) x y →
        names_say defs x list ≡ names_say defs y list }
{}

/// If each command in a list and in the definitions matches two paths with their arguments alike,
/// then the list answers both alike, through aliases.
pub fn alike_commands()
    ensures { (defs : List (Definition CmndItem)) (list : List (Signed CmndItem))
        (path other : List ℕ) (args others : List (List ℕ))
        → AlikeCmnds (flat_map (λ d. cmnds_in d.list) defs) path args other others
        → AlikeCmnds (cmnds_in list) path args other others
        → list_says_by (λ says item. cmnd_answer says path args item) defs list
        ≡ list_says_by (λ says item. cmnd_answer says other others item) defs list }
{}

/// If each name, command and date of a policy answers two invocations alike, then the policy
/// decides both alike.
pub fn alike_decide()
    ensures { (es : List Entry) (i j : Invocation) (d : Decision)
        → Alike es i j → Decides es i d → Decides es j d }
{}

// ---- the five lists

/// For each user in the scope, the list has a user that every user name in either policy answers
/// alike.
pub fn each_user_has_a_case()
    ensures { (s : Scope) (a b : List Entry) (c : Cases) → IsPolicy a → IsPolicy b
        → AreCases s a b c → (x : List ℕ) → is_name x ≡ true → Agrees s.user x
        → (y : List ℕ) × Contains c.users y × AlikeNames (users a ++ users b) x y }
{}

/// For each host in the scope, the list has a host that every host name in either policy answers
/// alike.
pub fn each_host_has_a_case()
    ensures { (s : Scope) (a b : List Entry) (c : Cases) → IsPolicy a → IsPolicy b
        → AreCases s a b c → (x : List ℕ) → is_host_name x ≡ true → Agrees s.host x
        → (y : List ℕ) × Contains c.hosts y × AlikeNames (hosts a ++ hosts b) x y }
{}

/// For each target in the scope, the list has a target that every target name in either policy
/// answers alike.
pub fn each_target_has_a_case()
    ensures { (s : Scope) (a b : List Entry) (c : Cases) → IsPolicy a → IsPolicy b
        → AreCases s a b c → (x : List ℕ) → is_name x ≡ true → Agrees s.runas x
        → (y : List ℕ) × Contains c.targets y × AlikeNames (runas a ++ runas b) x y }
{}

/// For each path with its arguments, the list has a path with arguments that every command in
/// either policy matches alike.
pub fn each_command_has_a_case()
    ensures { (s : Scope) (a b : List Entry) (c : Cases) → IsPolicy a → IsPolicy b
        → AreCases s a b c → (path : List ℕ) (args : List (List ℕ)) → is_file_path path ≡ true
        → AllByRecursion (λ arg. is_arg arg ≡ true) args → length args ≤ 64
        → (other : List ℕ) × (others : List (List ℕ)) × Contains c.runs (run_of other others)
        × AlikeCmnds (commands a ++ commands b) path args other others }
{}

/// For each moment, the list has a moment at which the same rules of both policies take part.
pub fn each_moment_has_a_case()
    ensures { (s : Scope) (a b : List Entry) (c : Cases) → IsPolicy a
        → IsPolicy b → AreCases s a b c → (t : ℕ) → IsMoment t
        → (u : ℕ) × Contains c.moments u × AlikeMoments (rules_in a ++ rules_in b) t u }
{}

/// Two policies and a scope have only one list of each part.
pub fn one_list_of_each()
    ensures { (s : Scope) (a b : List Entry) (c d : Cases)
        → AreCases s a b c → AreCases s a b d → c ≡ d }
{}

/// Any two policies and any scope have these lists, which make few cases or too many.
pub fn each_has_cases()
    ensures cases { (s : Scope) (a b : List Entry) → IsPolicy a → IsPolicy b
        → (c : Cases) × AreCases s a b c }
    ensures count { (s : Scope) (a b : List Entry) → IsPolicy a → IsPolicy b
        → AreFew s a b ⊎ AreTooMany s a b }
{}

/// If the cases are few, there is an answer: the first case that lies beyond, or that no case does.
/// So something lies beyond, or nothing does.
pub fn each_has_an_answer()
    ensures first { (s : Scope) (a b : List Entry) → AreFew s a b
        → (found : Option Invocation) × IsFirstBeyond s a b found }
    ensures told { (s : Scope) (a b : List Entry) → IsPolicy a → IsPolicy b → IsScope s
        → AreFew s a b → SomethingBeyond s a b ⊎ (SomethingBeyond s a b → ⊥) }
{}

/// The lists make as many invocations as their product says, and each is well formed and in the
/// scope.
pub fn cases_are_invocations()
    ensures count { (c : Cases) → length (invocations c) ≡ product c }
    ensures form { (s : Scope) (a b : List Entry) (c : Cases) → IsPolicy a → IsPolicy b → IsScope s
        → AreCases s a b c → AllByRecursion (λ i. IsInvocation i × IsInScope s i) (invocations c) }
{}

/// If an invocation lies beyond, then one of the cases does; if none of the cases is a gap, nothing
/// lies beyond.
pub fn cases_suffice()
    ensures at_a_case { (s : Scope) (a b : List Entry) (c : Cases)
        → IsPolicy a → IsPolicy b → AreCases s a b c → SomethingBeyond s a b
        → (i : Invocation) × Contains (invocations c) i × LiesBeyond s a b i }
    ensures nowhere { (s : Scope) (a b : List Entry) (c : Cases)
        → IsPolicy a → IsPolicy b → AreCases s a b c
        → AllByRecursion (λ i. IsGap a b i → ⊥) (invocations c) → SomethingBeyond s a b → ⊥ }
{}

// ---- policies

/// A text that spells a policy has no command, in rules or in aliases, used or not, whose file sudo
/// takes for its own command `sudoedit`. No user, host or target in the text is named by a word
/// with which sudo begins a command.
pub fn nothing_of_sudos_own()
    ensures commands { (text : Text) (es : List Entry) → Spells text es
        → AllByRecursion (λ c. (front : List ℕ) (rule : Ruled)
        → c ≡ File (front ++ codes "/sudoedit") rule → ⊥) (commands es) }
    ensures users { (text : Text) (es : List Entry) → Spells text es
        → AllByRecursion (λ w. is_keyword w ≡ false) (users es) }
    ensures hosts { (text : Text) (es : List Entry) → Spells text es
        → AllByRecursion (λ w. is_keyword w ≡ false) (hosts es) }
    ensures targets { (text : Text) (es : List Entry) → Spells text es
        → AllByRecursion (λ w. is_keyword w ≡ false) (runas es) }
{}

/// Nothing lies beyond a policy itself.
pub fn nothing_beyond_itself()
    ensures { (s : Scope) (a : List Entry) → SomethingBeyond s a a → ⊥ }
{}

/// If one policy allows nothing beyond a second, and the second allows nothing beyond a third, then
/// the first allows nothing beyond the third.
pub fn nothing_beyond_a_third()
    ensures { (s : Scope) (a b c : List Entry) → (SomethingBeyond s a b → ⊥)
        → (SomethingBeyond s b c → ⊥) → SomethingBeyond s a c → ⊥ }
{}

/// If something lies beyond in a scope, then something lies beyond in each wider scope.
pub fn wider_scope()
    ensures { (s t : Scope) (a b : List Entry) → ((i : Invocation) → IsInScope s i → IsInScope t i)
        → SomethingBeyond s a b → SomethingBeyond t a b }
{}

/// For an invocation that lies beyond, the first policy's decision is never a denial, and the
/// second's always is.
pub fn beyond_is_decided()
    ensures first { (s : Scope) (a b : List Entry) (i : Invocation) (d : Decision)
        → LiesBeyond s a b i → Decides a i d → d ≡ Deny → ⊥ }
    ensures second { (s : Scope) (a b : List Entry) (i : Invocation) (d : Decision)
        → LiesBeyond s a b i → Decides b i d → d ≡ Deny }
{}

/// Worked cases: `ALL, !bob db1 = ALL` allows somebody whom neither text names, but not bob, beyond
/// `ann db1 = ALL`. The moment after a rule's last moment is one second later, and the last moment
/// of all has no moment after it.
pub fn worked_beyond()
    ensures somebody { LiesBeyond anything all_except_bob ann_alone (runs_other (codes "other0")) }
    ensures bob { LiesBeyond anything all_except_bob ann_alone (runs_other (codes "bob")) → ⊥ }
    ensures standing { users all_except_bob ++ users ann_alone ≡ codes "bob" ∷ codes "ann" ∷ [] }
    ensures next { moment_after (Some 1_767_610_800) ≡ 1_767_610_801 ∷ [] }
    ensures last { moment_after (Some 4_102_444_799) ≡ [] }
{}
