//! The laws, each the contract of a function that does nothing. The laws of names, paths, commands
//! and commands' texts are written here.

ghost use Rattle.std.specs.Prelude.{◌≡◌, ◌↔◌, ◌++◌, ℕ, List, true, false, codes};
ghost use Rattle.sudo_words.specs.Command.{IsLawful, cmnd_text, is_directly_in};
ghost use Rattle.sudo_words.specs.Word.{is_component, is_host_name, is_label, is_name, is_sudoedit};
ghost use Rattle.sudo_words.specs.declared.cmnd.ArgRule.{ArgRule as Ruled};
ghost use Rattle.sudo_words.specs.declared.cmnd.Cmnd.TheVariants.{Dir, Path};
ghost use Rattle.sudo_words.specs.declared.cmnd.Cmnd.{Cmnd as Command};

// the texts of moments
pub use crate::moment_laws::{one_moment, stamp_is_stamp, stamp_spells, worked_moments};

/// No two lawful commands have the same text.
pub fn one_command()
    ensures { (c d : Command) → IsLawful c → IsLawful d → cmnd_text c ≡ cmnd_text d → c ≡ d }
{}

/// A path is directly in a directory exactly where it is the directory's path and one component
/// after it.
pub fn directory_and_component()
    ensures { (dir path : List ℕ) → (is_directly_in dir path ≡ true)
        ↔ ((component : List ℕ) × (path ≡ dir ++ component) × (is_component component ≡ true)) }
{}

/// The paths that sudo takes for its own command are those that end in `/sudoedit`, and no lawful
/// command has one.
pub fn no_sudoedit()
    ensures last { (path : List ℕ)
        → (is_sudoedit path ≡ true) ↔ ((front : List ℕ) × (path ≡ front ++ codes "/sudoedit")) }
    ensures unlawful { (front : List ℕ) (rule : Ruled)
        → ¬ IsLawful (Path (front ++ codes "/sudoedit") rule) }
{}

/// Worked paths: those that sudo takes for its own command, those that it does not, and a directory
/// of that name.
pub fn worked_paths()
    ensures in_directory { is_sudoedit (codes "/opt/app/bin/sudoedit") ≡ true }
    ensures in_root { is_sudoedit (codes "/sudoedit") ≡ true }
    ensures longer { is_sudoedit (codes "/usr/bin/sudoedit2") ≡ false }
    ensures ends_so { is_sudoedit (codes "/usr/bin/mysudoedit") ≡ false }
    ensures below { is_sudoedit (codes "/opt/sudoedit/run") ≡ false }
    ensures directory { IsLawful (Dir (codes "/opt/sudoedit/")) }
{}

/// Worked names: a keyword is not the name of a user, target or host, but a keyword with more after
/// it may be, and a label may be a keyword.
pub fn worked_names()
    ensures sudoedit { (is_name (codes "sudoedit") ≡ false)
        × (is_host_name (codes "sudoedit") ≡ false) }
    ensures sha224 { (is_name (codes "sha224") ≡ false) × (is_host_name (codes "sha224") ≡ false) }
    ensures sha256 { (is_name (codes "sha256") ≡ false) × (is_host_name (codes "sha256") ≡ false) }
    ensures sha384 { (is_name (codes "sha384") ≡ false) × (is_host_name (codes "sha384") ≡ false) }
    ensures sha512 { (is_name (codes "sha512") ≡ false) × (is_host_name (codes "sha512") ≡ false) }
    ensures longer { (is_name (codes "sha256x") ≡ true)
        × (is_host_name (codes "sudoedit2") ≡ true) }
    ensures label { is_label (codes "sudoedit") ≡ true }
{}
