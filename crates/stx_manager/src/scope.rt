// A scope: what one call of a method with an attribute has at the manager.
ghost use Rattle.std.specs.Prelude.{◌≡◌, true, IsNone, None};
ghost use Rattle.stx_manager.specs.Scopes.{new_scope};

use std::marker::Model;
use stx_base::Kind;
use stx_context::Suspended;

/// A scope that was opened. It can't be let go but by `done`, and so not while it holds what was suspended.
#[must_use]
pub struct Scope {
    kind: Kind,
    owns: bool,
    local_mark: bool,
    held: Option<Suspended>,
}

impl Model for Scope {
    ghost use Rattle.stx_manager.specs.Scopes.{OpenScope};

    ghost Value = { OpenScope };

    ghost view = { λ s. record { kind = s.kind; owns = s.owns; local_mark = s.local_mark; suspended = s.held } };
}

impl Scope {
    /// A scope without a mark, with what was suspended for it, if anything was.
    pub fn new(kind: Kind, owns: bool, held: Option<Suspended>) -> Scope
        ensures { result ≡ new_scope kind owns held }
    {
        Scope {
            kind,
            owns,
            local_mark: false,
            held,
        }
    }

    /// Marks this scope alone for rollback.
    pub fn set_local_mark(&mut self)
        ensures { self.new ≡ record self.old { local_mark = true } }
    {
        self.local_mark = true;
    }

    /// Hands out what was suspended, or nothing where the scope holds nothing.
    pub fn take_held(&mut self) -> Option<Suspended>
        ensures held { result ≡ self.old.suspended }
        ensures rest { self.new ≡ record self.old { suspended = None } }
    {
        self.held.take()
    }

    /// Lets a scope go that holds nothing.
    pub fn done(self)
        requires { IsNone self.suspended }
    {
        let Scope {
            kind: _,
            owns: _,
            local_mark: _,
            held,
        } = self;
        let None = held else { unreachable!() };
    }

    pub fn kind(&self) -> Kind
        ensures { result ≡ self.now.kind }
    {
        self.kind
    }

    /// Whether it owns the active synchronisation.
    pub fn owns(&self) -> bool
        ensures { result ≡ self.now.owns }
    {
        self.owns
    }

    pub fn local_mark(&self) -> bool
        ensures { result ≡ self.now.local_mark }
    {
        self.local_mark
    }
}
