// What has a name.
ghost use Rattle.std.specs.Prelude.{◌≡◌, ℕ, List as Elements};

use crate::{Bean, ClassDecl, Listener, Name, SyncDecl};

/// A part of a scenario that has a name, and a name itself.
pub trait HasName {
    ghost name_of: { Self → Elements ℕ };

    fn name(&self) -> &str
        ensures { result.now ≡ name_of self.now };
}

impl HasName for Name {
    ghost name_of = { λ name. name };

    fn name(&self) -> &str {
        self.as_str()
    }
}

impl HasName for ClassDecl {
    ghost name_of = { λ class. class.name };

    fn name(&self) -> &str {
        self.name.as_str()
    }
}

impl HasName for Bean {
    ghost name_of = { λ bean. bean.name };

    fn name(&self) -> &str {
        self.name.as_str()
    }
}

impl HasName for SyncDecl {
    ghost name_of = { λ sync. sync.name };

    fn name(&self) -> &str {
        self.name.as_str()
    }
}

impl HasName for Listener {
    ghost name_of = { λ listener. listener.name };

    fn name(&self) -> &str {
        self.name.as_str()
    }
}
