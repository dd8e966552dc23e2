//! Values that copies share.

ghost use Rattle.std.specs.Prelude.{◌≡◌, IfOk};

use nfs3_types::{Copies, NoMemory};
use std::alloc::Global;
use std::marker::Model;
use std::sync::Arc;

/// A value that copies share: a contract sees it as the value. A copy keeps nothing more than a pointer.
#[derive(Debug, Drop)]
pub struct Shared<T: Drop> {
    inner: Arc<T, Global>,
}

impl<T: Drop> Model for Shared<T> {
    ghost use Rattle.std.specs.Arc.{arc_value};

    ghost Value = { T };

    ghost view = { λ shared. arc_value shared.inner };
}

impl<T: Drop> Shared<T> {
    /// The value, to be shared. Where memory lacks it is dropped.
    pub fn new(alloc: Global, value: T) -> Result<Shared<T>, NoMemory>
        ensures { IfOk result (λ shared. shared ≡ value) }
    {
        Ok(Shared {
            inner: Arc::new(alloc, value)?,
        })
    }

    /// The value.
    pub fn get(&self) -> &T
        ensures { result.now ≡ self.now }
    {
        &*self.inner
    }
}

impl<T: Drop> Copies for Shared<T> {
    fn copy(&self, _alloc: Global) -> Result<Shared<T>, NoMemory> {
        Ok(Shared {
            inner: Arc::try_clone(&self.inner)?,
        })
    }
}
