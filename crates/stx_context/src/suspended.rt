// What was suspended.
ghost use Rattle.std.specs.Prelude.{◌≡◌};

use crate::Context;
use std::marker::Model;

/// What a context held until it was suspended (`SuspendedResourcesHolder`), seen as that context. Only `Context::resume`
/// or `retire` spends it.
#[must_use]
pub struct Suspended {
    context: Context,
}

impl Model for Suspended {
    ghost use Rattle.stx_context.specs.Carrying.{Carried};

    ghost Value = { Carried };

    ghost view = { λ s. s.context };
}

impl Suspended {
    pub(crate) fn new(context: Context) -> Suspended
        ensures { result ≡ context }
    {
        Suspended { context }
    }

    pub(crate) fn into_context(self) -> Context
        ensures { result ≡ self }
    {
        let Suspended { context } = self;
        context
    }

    /// Retires the connection, and the session, that were suspended.
    pub fn retire(self) {
        let Suspended { context } = self;
        context.retire();
    }
}
