//! Laws of aliases, each the contract of a function that does nothing.

ghost use Rattle.std.specs.Prelude.{List};
ghost use Rattle.sudo_policy.specs.declared.entry.Entry.{Entry as Entered};
ghost use Rattle.sudo_policy.specs.Alias.{item_alias, cmnd_alias, user_def};
ghost use Rattle.sudo_policy.specs.Alias.{runas_def, host_def, cmnd_def};
ghost use Rattle.sudo_policy.specs.Aliased.{EachWeighsItsList};
ghost use Rattle.sudo_policy.specs.Policy.{IsPolicy};

/// Each alias of a policy weighs what its list weighs, and is one deeper than the deepest alias in
/// it, all by the policy's own definitions (sudoers(5), "Aliases").
pub fn alias_weighs_its_list()
    ensures users { (es : List Entered) → IsPolicy es → EachWeighsItsList item_alias user_def es }
    ensures runas { (es : List Entered) → IsPolicy es → EachWeighsItsList item_alias runas_def es }
    ensures hosts { (es : List Entered) → IsPolicy es → EachWeighsItsList item_alias host_def es }
    ensures cmnds { (es : List Entered) → IsPolicy es → EachWeighsItsList cmnd_alias cmnd_def es }
{}
