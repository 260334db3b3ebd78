//! The aliases of one kind, each written out once.

ghost use Rattle.std.specs.Prelude.{◌≡◌, List, ℕ, None, Some, OnOk};
ghost use Rattle.std.specs.Option.{option_map};
ghost use Rattle.std.specs.Map.{update};
ghost use Rattle.std.specs.Str.{bytes_eq};
ghost use Rattle.sudo_compiled.specs.private.Writing.{list_at};

use std::alloc::Global;
use std::collections::HashMap;
use std::rc::Rc;
use sudo_policy::Signed;
use sudo_words::{AliasName, NoMemory};

/// The aliases of one kind by name, each with what it stands for: a list without aliases.
#[derive(Drop)]
pub(crate) struct Known<P> {
    lists: HashMap<String, Rc<Vec<Signed<P>>>>,
}

impl<P: Drop> Known<P> {
    /// No aliases.
    pub(crate) fn new(alloc: Global) -> Known<P>
        ensures { (name : List ℕ) → list_at result name ≡ None }
    {
        Known {
            lists: HashMap::new(alloc),
        }
    }

    /// What the alias stands for.
    pub(crate) fn get(&self, name: &AliasName) -> Option<&Rc<Vec<Signed<P>>>>
        ensures { option_map (λ x. x.now.value.items) result ≡ list_at self.now name.now }
    {
        self.lists.get(name.as_str())
    }

    /// Adds an alias, and what it stands for.
    pub(crate) fn add(
        &mut self,
        alloc: Global,
        name: &AliasName,
        list: Vec<Signed<P>>,
    ) -> Result<(), NoMemory>
        ensures { OnOk result ((n : List ℕ) → list_at self.new n
            ≡ update bytes_eq (list_at self.old) name.now (Some list.items) n) }
    {
        let list = Rc::new(alloc, list)?;
        self.lists
            .insert(String::from_str(alloc, name.as_str())?, list)?;
        Ok(())
    }
}
