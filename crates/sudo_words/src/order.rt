//! Lists in order, each element once.

ghost use Rattle.std.specs.Prelude.{◌≡◌};
ghost use Rattle.std.specs.List.{list_any};
ghost use Rattle.std.specs.List.Sorted.{IsStrictlySortedBy};
ghost use Rattle.sudo_words.specs.Lists.{IsEachOnce, IsExact};

/// The elements, each once, in order.
pub fn in_order<T: Ord + Drop>(mut elements: Vec<T>) -> Vec<T>
    requires { IsExact T.eq }
    ensures { IsEachOnce T.cmp elements.items result.items }
{
    elements.sort_unstable();
    elements.dedup();
    elements
}

/// Whether `x` is one of the elements, which are in order. The search is binary.
pub fn is_among<T: Ord>(elements: &[T], x: &T) -> bool
    requires { IsStrictlySortedBy T.cmp elements.now }
    ensures { result ≡ list_any (λ y. T.eq y x.now) elements.now }
{
    elements.binary_search(x).is_ok()
}
