// What the manager does at the opening of a scope.
ghost use Rattle.std.specs.Prelude.{◌≡◌};
ghost use Rattle.stx_model.specs.Opening as table;
ghost use Rattle.stx_conn.specs.Bindings.{live};
ghost use Rattle.stx_context.specs.Carrying.{context_of};

use stx_base::Opening;
use stx_conn::Holder;
use stx_context::Context;
use stx_scenario::{
    CANNOT_CREATE_TRANSACTION_EXCEPTION, ILLEGAL_TRANSACTION_STATE_EXCEPTION,
    NESTED_TRANSACTION_NOT_SUPPORTED_EXCEPTION, Propagation, Settings, SyncMode, TxAttr,
};

/// What is done where a method with this attribute is called in this context.
#[tactic(auto, unfolding(stx_model::specs::Opening::opening))]
pub fn opening(settings: &Settings, attribute: &TxAttr, context: &Context) -> Opening
    ensures { result ≡ table.opening settings.now attribute.now (context_of context.now) }
{
    match context.bound() {
        Some(holder) => opening_within(settings, holder, attribute.propagation),
        None => opening_without(settings, context, attribute.propagation),
    }
}

// A transaction is live.
fn opening_within(settings: &Settings, holder: &Holder, propagation: Propagation) -> Opening
    ensures { result ≡ table.opening_within settings.now (live holder.now) propagation }
{
    match propagation {
        Propagation::Required | Propagation::Supports | Propagation::Mandatory => Opening::Join,
        Propagation::RequiresNew => Opening::Fresh {
            suspends: true,
            owns: owns_fresh(settings.mode),
        },
        Propagation::NotSupported => Opening::Empty {
            suspends: true,
            owns: owns_empty(settings.mode, false),
        },
        Propagation::Never => Opening::Refuse(ILLEGAL_TRANSACTION_STATE_EXCEPTION),
        Propagation::Nested => opens_point(settings, holder),
    }
}

fn opens_point(settings: &Settings, holder: &Holder) -> Opening
    ensures { result ≡ table.opens_point settings.now (live holder.now) }
{
    if !settings.nested {
        Opening::Refuse(NESTED_TRANSACTION_NOT_SUPPORTED_EXCEPTION)
    } else if holder.is_marked() {
        Opening::Refuse(CANNOT_CREATE_TRANSACTION_EXCEPTION)
    } else {
        Opening::Point
    }
}

// No transaction is live.
fn opening_without(settings: &Settings, context: &Context, propagation: Propagation) -> Opening
    ensures { result ≡ table.opening_without settings.now (context_of context.now) propagation }
{
    let active = context.active().is_some();
    match propagation {
        Propagation::Required | Propagation::RequiresNew | Propagation::Nested => Opening::Fresh {
            suspends: active,
            owns: owns_fresh(settings.mode),
        },
        Propagation::Supports | Propagation::NotSupported | Propagation::Never => Opening::Empty {
            suspends: false,
            owns: owns_empty(settings.mode, active),
        },
        Propagation::Mandatory => Opening::Refuse(ILLEGAL_TRANSACTION_STATE_EXCEPTION),
    }
}

fn owns_fresh(mode: SyncMode) -> bool
    ensures { result ≡ table.owns_fresh mode }
{
    !matches!(mode, SyncMode::Never)
}

fn owns_empty(mode: SyncMode, active: bool) -> bool
    ensures { result ≡ table.owns_empty mode active }
{
    matches!(mode, SyncMode::Always) && !active
}
