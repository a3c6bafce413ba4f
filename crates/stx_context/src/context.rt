// The context itself: a bound holder and the active registrations, each if there is one.
ghost use Rattle.std.specs.Prelude.{◌≡◌, Some, None, IsSome, IsNone};
ghost use Rattle.std.specs.Borrow.{sem};
ghost use Rattle.std.specs.Option.{option_copied, option_copied_mut};
ghost use Rattle.stx_context.specs.Carrying.{bare};
ghost use Rattle.stx_context.specs.Lending.{LendsHolder, LendsRegistry};

use crate::Suspended;
use std::marker::Model;
use std::mem;
use stx_conn::Holder;
use stx_sync::Registry;

/// What a client carries: at most one bound connection with its transaction, and the registrations where
/// synchronisation is active. All calls are moves and looks. It can't be let go but by `retire`.
#[must_use]
pub struct Context {
    holder: Option<Holder>,
    registry: Option<Registry>,
}

impl Model for Context {
    ghost use Rattle.stx_context.specs.Carrying.{Carried};

    ghost Value = { Carried };

    ghost view = { λ c. record { tx = c.holder; syncs = c.registry } };
}

impl Context {
    /// No connection is bound, and no synchronisation is active.
    pub fn bare() -> Context
        ensures { result ≡ bare }
    {
        Context {
            holder: None,
            registry: None,
        }
    }

    /// Takes all out of the context.
    pub fn suspend(&mut self) -> Suspended
        ensures held { result ≡ self.old }
        ensures left { self.new ≡ bare }
    {
        Suspended::new(mem::replace(self, Context::bare()))
    }

    /// Puts all back that was taken out.
    pub fn resume(&mut self, held: Suspended)
        requires { self.old ≡ bare }
        ensures { self.new ≡ held }
    {
        mem::replace(self, held.into_context()).retire();
    }

    /// Binds a connection with its transaction.
    pub fn bind(&mut self, holder: Holder)
        requires { IsNone self.old.tx }
        ensures { self.new ≡ record self.old { tx = Some holder } }
    {
        let before = self.holder.replace(holder);
        let None = before else { unreachable!() };
    }

    /// Hands the bound connection out, with what is left of its transaction.
    pub fn unbind(&mut self) -> Holder
        requires { IsSome self.old.tx }
        ensures holder { Some result ≡ self.old.tx }
        ensures rest { self.new ≡ record self.old { tx = None } }
    {
        match self.holder.take() {
            Some(holder) => holder,
            None => unreachable!(),
        }
    }

    /// Makes synchronisation active.
    pub fn start_syncs(&mut self, registry: Registry)
        requires { IsNone self.old.syncs }
        ensures { self.new ≡ record self.old { syncs = Some registry } }
    {
        self.registry = Some(registry);
    }

    /// Takes the registrations out, and makes synchronisation inactive.
    pub fn end_syncs(&mut self) -> Registry
        requires { IsSome self.old.syncs }
        ensures registry { Some result ≡ self.old.syncs }
        ensures rest { self.new ≡ record self.old { syncs = None } }
    {
        match self.registry.take() {
            Some(registry) => registry,
            None => unreachable!(),
        }
    }

    /// The bound connection with its transaction, to change.
    pub fn holder(&mut self) -> Option<&mut Holder>
        ensures value { option_copied_mut result ≡ self.old.tx }
        ensures* writes_back { sem 𝓛 (LendsHolder self.entry result) }
    {
        self.holder.as_mut()
    }

    /// The registrations, to add to.
    pub fn registry(&mut self) -> Option<&mut Registry>
        ensures value { option_copied_mut result ≡ self.old.syncs }
        ensures* writes_back { sem 𝓛 (LendsRegistry self.entry result) }
    {
        self.registry.as_mut()
    }

    /// The bound connection with its transaction.
    pub fn bound(&self) -> Option<&Holder>
        ensures { option_copied result ≡ self.now.tx }
    {
        self.holder.as_ref()
    }

    /// The registrations.
    pub fn active(&self) -> Option<&Registry>
        ensures { option_copied result ≡ self.now.syncs }
    {
        self.registry.as_ref()
    }

    /// Retires the bound connection, and its session if it is still there.
    pub fn retire(self) {
        let Context {
            holder,
            registry: _,
        } = self;
        if let Some(holder) = holder {
            holder.retire();
        }
    }
}
