//! Worked texts of policies, each the contract of a function that does nothing.

ghost use Rattle.std.specs.Prelude.{◌≡◌, [], ◌∷◌, codes};
ghost use Rattle.sudo_words.specs.declared.cmnd.ArgRule.TheVariants as rules;
ghost use Rattle.sudo_words.specs.declared.cmnd.Cmnd.TheVariants as commands;
ghost use Rattle.sudo_syntax.specs.Doubling.{doubled};
ghost use Rattle.sudo_policy.specs.Policy.{weight};
ghost use Rattle.sudo_policy.specs.Printing.{canon};
ghost use Rattle.sudo_policy.specs.Spelling.{Spells};
ghost use Rattle.sudo_syntax.specs.Worked.{SpellsAs, SpellsNone, may_run};

/// Worked texts, and the canonical texts of the policies that they spell: aliases and parts joined
/// by `:`, a date that is inherited, one by a clock ahead of UTC, a line that goes on, `!` that
/// cancel out, a comment, and one name in two kinds of aliases.
pub fn worked_texts()
    ensures aliases { SpellsAs
        (codes "User_Alias A = ann, bob : B = A, !bob\nB db1 = /bin/ls : db2 = (ALL) ALL")
        (codes "User_Alias A = ann, bob\nUser_Alias B = A, !bob\nB db1 = (root) /bin/ls\nB db2 = (ALL) ALL\n") }
    ensures dates { SpellsAs
        (codes "ann db1 = NOTAFTER=2026010511Z /bin/ls, NOTBEFORE=2026010509Z /bin/cat : db2 = /bin/ls")
        (codes "ann db1 = (root) NOTAFTER=20260105110000Z /bin/ls\nann db1 = (root) NOTBEFORE=20260105090000Z NOTAFTER=20260105110000Z /bin/cat\nann db2 = (root) /bin/ls\n") }
    ensures ahead { SpellsAs (codes "ann db1 = NOTBEFORE=20260105100000+0100 /bin/ls")
        (codes "ann db1 = (root) NOTBEFORE=20260105090000Z /bin/ls\n") }
    ensures continued { SpellsAs (codes "ann db1 = \\\n/bin/ls")
        (codes "ann db1 = (root) /bin/ls\n") }
    ensures signs { SpellsAs (codes "!!ann db1 = !!!/bin/su")
        (codes "ann db1 = (root) !/bin/su\n") }
    ensures comment { SpellsAs (codes "ann db1 = ALL # see #12") (codes "ann db1 = (root) ALL\n") }
    ensures kinds { SpellsAs (codes "Host_Alias B = db1\nUser_Alias B = ann\nB B = ALL")
        (codes "Host_Alias B = db1\nUser_Alias B = ann\nB B = (root) ALL\n") }
{}

/// Worked commands: `a\:b` is the argument `a:b`, and a path that ends in a slash is a directory.
pub fn worked_commands()
    ensures escape { Spells (codes "ann db1 = /bin/echo a\\:b")
        (may_run (commands.Path (codes "/bin/echo") (rules.Exactly (codes "a:b" ∷ [])))) }
    ensures directory { Spells (codes "ann db1 = /usr/bin/")
        (may_run (commands.Dir (codes "/usr/bin/"))) }
{}

/// Worked texts that spell no policy: a line that goes on inside a word, an alias that is defined
/// below its use, an argument whose `:` has no backslash, a directory with an argument, and a blank
/// after `!`.
pub fn worked_refusals()
    ensures inside { SpellsNone (codes "ann db1\\\n= /bin/ls") }
    ensures below { SpellsNone (codes "B db1 = ALL\nUser_Alias B = ann") }
    ensures colon { SpellsNone (codes "ann db1 = /bin/echo a:b") }
    ensures directory { SpellsNone (codes "ann db1 = /usr/bin/ -l") }
    ensures blank { SpellsNone (codes "! ann db1 = ALL") }
{}

/// Worked weights: 16 aliases that each have the one above twice, and a rule for the last, are a
/// policy that weighs 65,539; with 17 the weight is 131,075, and the text spells no policy.
pub fn worked_weights()
    ensures text { canon (doubled 2)
        ≡ codes "User_Alias X1 = a, a\nUser_Alias X2 = X1, X1\nX2 db1 = (root) ALL\n" }
    ensures sixteen { Spells (canon (doubled 16)) (doubled 16) }
    ensures weight_of_sixteen { weight (doubled 16) ≡ 65_539 }
    ensures seventeen { SpellsNone (canon (doubled 17)) }
    ensures weight_of_seventeen { weight (doubled 17) ≡ 131_075 }
{}
