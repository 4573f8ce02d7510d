//! Values that are remembered for clauses, also on other threads.
ghost use Rattle.std.specs.Prelude.{◌≡◌};
ghost use base.Fml.{ftrue};

use std::marker::{Model, PhantomData};

/// A value as it was. It has no bytes and owns nothing, and may go to any thread.
pub struct Remembered<T> {
    marker: PhantomData<T>,
    pub ghost value: { T },
}

impl<T> Model for Remembered<T> {
    ghost also_owns = { λ _. ftrue };
}

impl<T> Remembered<T> {
    /// The value as it is now.
    pub fn of(value: &T) -> Remembered<T>
        ensures { result.value ≡ value.now }
    {
        let _ = value;
        Remembered {
            marker: PhantomData,
        }
    }
}

unsafe impl<T> Send for Remembered<T> {}

unsafe impl<T> Sync for Remembered<T> {}

impl<T> Drop for Remembered<T> {
    fn drop(self) {
        let Self { marker: _ } = self;
    }
}
