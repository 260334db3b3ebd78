//! Laws of aliases, each the contract of a function that does nothing.

ghost use Rattle.std.specs.Prelude.{◌≡◌, ℕ, Bool, true, false, List, [], ◌∷◌, ◌++◌, reverse, codes};
ghost use Rattle.sudo_policy.specs.Alias.{is_defined, user_defs};
ghost use Rattle.sudo_policy.specs.declared.entry.CmndItem.{CmndItem};
ghost use Rattle.sudo_policy.specs.declared.entry.CmndItem.TheVariants as cmnds;
ghost use Rattle.sudo_policy.specs.declared.entry.Item.{Item};
ghost use Rattle.sudo_policy.specs.declared.entry.Item.TheVariants as items;
ghost use Rattle.sudo_policy.specs.declared.tree.Definition.{Definition};
ghost use Rattle.sudo_decide.specs.Decision.{signed_answer, list_answer, item_answer, cmnd_answer};
ghost use Rattle.sudo_decide.specs.Decision.{name_alias_says, cmnd_alias_says, names_say};
ghost use Rattle.sudo_decide.specs.Worked.{alias_only, others_alias, nested_aliases, not_ls_alias};

/// An alias answers what its list answers, by the definitions above its own.
pub fn alias_answers_its_list()
    ensures names { (later above : List (Definition (Item (List ℕ))))
        (d : Definition (Item (List ℕ))) (asked : List ℕ) → is_defined later d.name ≡ false
        → name_alias_says (later ++ d ∷ above) asked d.name ≡ names_say above asked d.list }
    ensures cmnds { (later above : List (Definition CmndItem)) (d : Definition CmndItem)
        (path : List ℕ) (args : List (List ℕ)) → is_defined later d.name ≡ false
        → cmnd_alias_says (later ++ d ∷ above) path args d.name
        ≡ list_answer (cmnd_answer (cmnd_alias_says above path args) path args) d.list }
{}

/// Where an alias's list is silent, so is the alias, negated or not.
pub fn alias_keeps_silence()
    ensures names { (later above : List (Definition (Item (List ℕ))))
        (d : Definition (Item (List ℕ))) (asked : List ℕ) (negated : Bool)
        → is_defined later d.name ≡ false → names_say above asked d.list ≡ None
        → signed_answer negated (item_answer (name_alias_says (later ++ d ∷ above) asked) asked
        (items.Alias d.name)) ≡ None }
    ensures cmnds { (later above : List (Definition CmndItem)) (d : Definition CmndItem)
        (path : List ℕ) (args : List (List ℕ)) (negated : Bool) → is_defined later d.name ≡ false
        → list_answer (cmnd_answer (cmnd_alias_says above path args) path args) d.list ≡ None
        → signed_answer negated (cmnd_answer (cmnd_alias_says (later ++ d ∷ above) path args)
        path args (cmnds.Alias d.name)) ≡ None }
{}

/// Worked aliases of users: where `X = ALL, !bob`, `!X` says yes to bob and no to ann; where `A =
/// ann, bob` and `B = A, !bob`, `B` says no to bob and yes to ann.
pub fn worked_user_aliases()
    ensures not_others_bob { names_say (user_defs (reverse others_alias))
        (codes "bob") (alias_only true (codes "X")) ≡ Some true }
    ensures not_others_ann { names_say (user_defs (reverse others_alias))
        (codes "ann") (alias_only true (codes "X")) ≡ Some false }
    ensures nested_bob { names_say (user_defs (reverse nested_aliases))
        (codes "bob") (alias_only false (codes "B")) ≡ Some false }
    ensures nested_ann { names_say (user_defs (reverse nested_aliases))
        (codes "ann") (alias_only false (codes "B")) ≡ Some true }
{}

/// Worked aliases of commands: where `C = /bin/ls, !/bin/su`, `!C` says no to the first, yes to the
/// second, and is silent about others.
pub fn worked_cmnd_aliases()
    ensures first { not_ls_alias (codes "/bin/ls") ≡ Some false }
    ensures second { not_ls_alias (codes "/bin/su") ≡ Some true }
    ensures other { not_ls_alias (codes "/bin/cat") ≡ None }
{}
