//! Laws of what lines stand for, each the contract of a function that does nothing.

ghost use Rattle.std.specs.Prelude.{◌≡◌, ℕ, ◌+◌, Bool, List, [], ◌∷◌, ◌++◌, length, codes};
ghost use Rattle.sudo_words.specs.Bytes.{space, backslash, hash};
ghost use Rattle.sudo_policy.specs.declared.entry.CmndItem.{CmndItem as AnyCmnd};
ghost use Rattle.sudo_policy.specs.declared.entry.Item.{Item as AnyItem};
ghost use Rattle.sudo_policy.specs.declared.entry.Signed.{Signed as AnySigned};
ghost use Rattle.sudo_words.specs.Word.{is_name, is_host_name};
ghost use Rattle.sudo_policy.specs.declared.tree.Definition.{Definition as AnyDefinition};
ghost use Rattle.sudo_policy.specs.declared.tree.Part.{Part};
ghost use Rattle.sudo_policy.specs.declared.tags.Tag.{Tag};
ghost use Rattle.sudo_policy.specs.declared.tree.CmndSpec.{CmndSpec};
ghost use Rattle.sudo_syntax.specs.Alike.{SpellAlike, DifferIn, MayHaveNote, GoesOnWith};
ghost use Rattle.sudo_syntax.specs.Apart.{AreColonParts, AreDefs, AreUsers, SpellsBoth};
ghost use Rattle.sudo_policy.specs.Grammar.{SpellsItem, SpellsCmnd, SpellsCmndSpec};
ghost use Rattle.sudo_policy.specs.Inheritance.{part_rules};
ghost use Rattle.sudo_syntax.specs.Inherited.{Gives, HasRule};
ghost use Rattle.sudo_policy.specs.Lex.{Tok, word};
ghost use Rattle.sudo_policy.specs.Text.{Names};

/// Each command of a list has one rule, at its own place, with the target, the bounds and the tags
/// that were given last in the list up to and including it (sudoers(5), "Cmnd_Spec_List").
pub fn inheritance()
    ensures rule { (users : Names) (part : Part) (before after : List CmndSpec) (s : CmndSpec) →
        part.specs ≡ before ++ s ∷ after → HasRule users part before s }
    ensures each { (users : Names) (part : Part)
        → length (part_rules users part) ≡ length part.specs }
{}

/// A comment may be left out: two texts that have the same lines, but for a comment after one of
/// them, spell the same.
pub fn comments()
    ensures { (text other line note : List ℕ) → MayHaveNote line note →
        DifferIn text other ((line ++ hash ∷ note) ∷ []) (line ∷ []) → SpellAlike text other }
{}

/// A line that goes on and the next line spell what one line spells, with a blank in place of the
/// backslash and the newline. The next line may not be a backslash alone.
pub fn continuations()
    ensures { (text other front next : List ℕ) → GoesOnWith front next
        → DifferIn text other ((front ++ backslash ∷ []) ∷ next ∷ []) ((front ++ space ∷ next) ∷ [])
        → SpellAlike text other }
{}

/// Two more `!` directly before an item or a command do not change what it spells.
pub fn signs()
    ensures items { (form : List ℕ → Bool) (spaced : Bool) (n : ℕ) (text : List ℕ)
        (ts : List Tok) (s : AnySigned (AnyItem (List ℕ))) (rest : List Tok)
        → (SpellsItem form (word spaced (n + 2) text ∷ ts) s rest → SpellsItem form
        (word spaced n text ∷ ts) s rest) × (SpellsItem form (word spaced n text ∷ ts) s rest
        → SpellsItem form (word spaced (n + 2) text ∷ ts) s rest) }
    ensures cmnds { (spaced : Bool) (n : ℕ) (text : List ℕ) (ts : List Tok) (s : AnySigned AnyCmnd)
        (rest : List Tok) → (SpellsCmnd (word spaced (n + 2) text ∷ ts) s rest
        → SpellsCmnd (word spaced n text ∷ ts) s rest) × (SpellsCmnd (word spaced n text ∷ ts) s
        rest → SpellsCmnd (word spaced (n + 2) text ∷ ts) s rest) }
{}

/// If a command has several tags before it, only the last counts.
pub fn tags()
    ensures { (ts : List Tok) (s : CmndSpec) (rest : List Tok)
        (spelled : SpellsCmndSpec ts s rest) (before : List Tag) (tag : Tag)
        → spelled.tags ≡ before ++ tag ∷ [] → Gives s.tags tag }
{}

/// A specification joined by `:` spells what specifications of the same users spell on lines of
/// their own (sudoers(5), "User specification").
pub fn joined_parts()
    ensures { (users_text first second : List ℕ) (users : Names) (parts others : List Part)
        → AreUsers users_text users → AreColonParts first parts
        → AreColonParts second others → SpellsBoth users_text first second }
{}

/// Definitions joined by `:` spell what they spell on lines of their own, in each kind (sudoers(5),
/// "Aliases").
pub fn joined_definitions()
    ensures users { (first second : List ℕ) (defs others : List (AnyDefinition (AnyItem (List ℕ))))
        → AreDefs (SpellsItem is_name) first defs → AreDefs (SpellsItem is_name) second others
        → SpellsBoth (codes "User_Alias") first second }
    ensures runas { (first second : List ℕ) (defs others : List (AnyDefinition (AnyItem (List ℕ))))
        → AreDefs (SpellsItem is_name) first defs → AreDefs (SpellsItem is_name) second others
        → SpellsBoth (codes "Runas_Alias") first second }
    ensures hosts { (first second : List ℕ) (defs others : List (AnyDefinition (AnyItem (List ℕ))))
        → AreDefs (SpellsItem is_host_name) first defs → AreDefs (SpellsItem is_host_name)
        second others → SpellsBoth (codes "Host_Alias") first second }
    ensures cmnds { (first second : List ℕ) (defs others : List (AnyDefinition AnyCmnd))
        → AreDefs SpellsCmnd first defs → AreDefs SpellsCmnd second others
        → SpellsBoth (codes "Cmnd_Alias") first second }
{}
