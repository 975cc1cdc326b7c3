//! A list that no code holds.

ghost use Rattle.std.specs.Prelude.{◌≡◌, List, [], ◌∷◌, ◌++◌};
ghost use Rattle.std.specs.Borrow.{ftrue};

use std::marker::{Model, PhantomData};

/// How an item changes a list.
pub trait Change<T> {
    ghost changed: { List T → T → List T };
}

/// A list of which contracts read the `items`. No code holds them: it takes no memory.
#[derive(Drop)]
pub struct GhostList<T> {
    of: PhantomData<T>,
    pub ghost items: { List T },
}

impl<T> Model for GhostList<T> {
    ghost also_owns = { λ _. ftrue };
}

// It owns nothing.
unsafe impl<T: Send> Send for GhostList<T> {}

impl<T> GhostList<T> {
    /// No item.
    pub fn new() -> GhostList<T>
        ensures { result.items ≡ [] }
    {
        GhostList { of: PhantomData }
    }

    /// The list as the item changes it.
    pub fn changed<C: Change<T>>(&self, _item: &T) -> GhostList<T>
        ensures { result.items ≡ C.changed self.now.items _item.now }
    {
        GhostList { of: PhantomData }
    }

    /// One item more, at the end.
    pub fn with(&self, item: &T) -> GhostList<T>
        ensures { result.items ≡ self.now.items ++ item.now ∷ [] }
    {
        self.changed::<AtTheEnd>(item)
    }
}

// The item comes to the end.
struct AtTheEnd;

impl<T> Change<T> for AtTheEnd {
    ghost changed = { λ items item. items ++ item ∷ [] };
}
