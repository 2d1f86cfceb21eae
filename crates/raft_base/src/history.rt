//! Earlier values, for contracts only. They take no memory, and the methods do nothing at run time.
ghost use Rattle.std.specs.Prelude.{◌≡◌, List, [], ◌∷◌};
ghost use Rattle.std.specs.Borrow.{ftrue};

use std::marker::{Model, PhantomData};

/// The earlier values of something, newest first.
#[derive(Drop)]
pub struct History<T> {
    of: PhantomData<T>,
    pub ghost items: { List T },
}

impl<T> Model for History<T> {
    ghost also_owns = { λ _. ftrue };
}

// It owns nothing.
unsafe impl<T: Send> Send for History<T> {}

unsafe impl<T: Sync> Sync for History<T> {}

impl<T> History<T> {
    /// A history without values.
    pub fn new() -> History<T>
        ensures { result.items ≡ [] }
    {
        History { of: PhantomData }
    }

    /// This history with one more value, which is its newest.
    pub fn with(&self, value: &T) -> History<T>
        ensures { result.items ≡ value.now ∷ self.now.items }
    {
        History { of: PhantomData }
    }
}
