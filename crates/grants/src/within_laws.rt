//! Laws about what commands reach, each the contract of a function that does nothing.

ghost use Rattle.std.specs.Prelude.{◌≡◌, ◌↔◌, ℕ, List, [], ◌∷◌, true, codes};
ghost use Rattle.sudo_words.specs.Command.{IsLawful, is_directly_in};
ghost use Rattle.sudo_words.specs.declared.cmnd.ArgRule.{ArgRule as AnyRule};
ghost use Rattle.sudo_words.specs.declared.cmnd.Cmnd.{Cmnd as AnyCmnd};
ghost use Rattle.sudo_words.specs.declared.cmnd.Cmnd.TheVariants.{All, Dir, Path};
ghost use Rattle.grants.specs.Reach.{LiesInside, ReachesSomething};
ghost use Rattle.grants.specs.WorkedAdmission.{file, file_alone, file_with};

/// Which of the commands that policies hold lie inside which: everything inside `ALL`, `ALL` inside
/// nothing else, a directory inside no other directory and no file, a file inside a directory
/// exactly if it is directly in it, and inside no other file.
pub fn forms_of_inclusion()
    ensures everything { (k : AnyCmnd) → LiesInside k All }
    ensures only_all { (c : AnyCmnd) → IsLawful c → LiesInside All c → c ≡ All }
    ensures directories { (d e : List ℕ) → IsLawful (Dir d)
        → IsLawful (Dir e) → LiesInside (Dir d) (Dir e) → d ≡ e }
    ensures not_in_file { (d f : List ℕ) (r : AnyRule) → IsLawful (Dir d)
        → IsLawful (Path f r) → ¬ LiesInside (Dir d) (Path f r) }
    ensures file { (f d : List ℕ) (r : AnyRule) → IsLawful (Path f r) → IsLawful (Dir d)
        → (LiesInside (Path f r) (Dir d) ↔ (is_directly_in d f ≡ true)) }
    ensures same_file { (f g : List ℕ) (r s : AnyRule) → IsLawful (Path f r)
        → IsLawful (Path g s) → LiesInside (Path f r) (Path g s) → f ≡ g }
{}

/// Each command that policies hold reaches something, with at most 64 arguments, whose path sudo
/// does not take for its own command `sudoedit`.
pub fn each_reaches_something()
    ensures { (c : AnyCmnd) → IsLawful c → ReachesSomething c }
{}

/// Worked commands: with arguments and without, and in a directory and below it.
pub fn worked_inclusions()
    ensures argument { LiesInside
        (file_with (codes "/bin/ls") (codes "-l" ∷ [])) (file (codes "/bin/ls")) }
    ensures any_argument { ¬ LiesInside (file (codes "/bin/ls"))
        (file_with (codes "/bin/ls") (codes "-l" ∷ [])) }
    ensures other_argument { ¬ LiesInside (file_with (codes "/bin/ls") (codes "-a" ∷ []))
        (file_with (codes "/bin/ls") (codes "-l" ∷ [])) }
    ensures no_argument { LiesInside (file_alone (codes "/bin/ls")) (file (codes "/bin/ls")) }
    ensures no_argument_only { ¬ LiesInside
        (file (codes "/bin/ls")) (file_alone (codes "/bin/ls")) }
    ensures no_argument_nor_one { ¬ LiesInside (file_alone (codes "/bin/ls"))
        (file_with (codes "/bin/ls") (codes "-l" ∷ [])) }
    ensures in_directory { LiesInside (file (codes "/usr/bin/id")) (Dir (codes "/usr/bin/")) }
    ensures with_argument { LiesInside
        (file_with (codes "/usr/bin/id") (codes "-u" ∷ [])) (Dir (codes "/usr/bin/")) }
    ensures below_directory { ¬ LiesInside (file (codes "/usr/bin/x/y")) (Dir (codes "/usr/bin/")) }
    ensures subdirectory { ¬ LiesInside (Dir (codes "/usr/bin/")) (Dir (codes "/usr/")) }
    ensures parent { ¬ LiesInside (Dir (codes "/usr/")) (Dir (codes "/usr/bin/")) }
    ensures all_in_directory { ¬ LiesInside All (Dir (codes "/usr/bin/")) }
    ensures all_in_file { ¬ LiesInside All (file (codes "/bin/ls")) }
{}
