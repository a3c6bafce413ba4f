// What statements and bodies cost, given what the methods cost. Each cost stops at a cap.
ghost use Rattle.std.specs.Prelude.{◌≡◌, ◌==◌, ◌<◌, length, map, filter, All};
ghost use Rattle.stx_base.specs.Weight.{no_cost, one, plus, total, callback_cost, callbacks_cost, callbacks, listener_cost, CallbackInRange, CallbacksInRange, SyncInRange, StatementInRange, BodyInRange, MethodsInRange};
ghost use Rattle.stx_graph.specs.inner.Costs.{added, capped, cost_at, statement_at};

use stx_base::Cost;
use stx_scenario::{GREATEST_WEIGHT, Listener, MethodNo, Stmt, SyncDecl};

/// Where costs stop: a body that costs more is too heavy, however much more that is.
pub(crate) const CAP: u64 = GREATEST_WEIGHT + 1;

pub(crate) const NOTHING: Cost = Cost {
    size: 0,
    registrations: 0,
};

const ONE: Cost = Cost {
    size: 1,
    registrations: 0,
};

const ONE_REGISTERED: Cost = Cost {
    size: 1,
    registrations: 1,
};

/// The sum of two costs.
pub(crate) fn add(left: Cost, right: Cost) -> Cost
    ensures { result ≡ added left right }
{
    Cost {
        size: left.size.saturating_add(right.size).min(CAP),
        registrations: left
            .registrations
            .saturating_add(right.registrations)
            .min(CAP),
    }
}

/// A method with this body, given the costs of the listeners of each event and of the callbacks of each
/// synchronisation.
pub(crate) fn method_cost(methods: &[Cost], events: &[Cost], syncs: &[Cost], body: &[Stmt]) -> Cost
    requires { BodyInRange (length methods.now) (length events.now) (length syncs.now) body.now }
    ensures { result ≡ capped (plus one (total (map (statement_at methods.now events.now syncs.now) body.now))) }
{
    let mut sum = ONE;
    for statement in body {
        sum = add(sum, statement_cost(methods, events, syncs, *statement));
    }
    sum
}

fn statement_cost(methods: &[Cost], events: &[Cost], syncs: &[Cost], statement: Stmt) -> Cost
    requires { StatementInRange (length methods.now) (length events.now) (length syncs.now) statement }
    ensures { result ≡ capped (statement_at methods.now events.now syncs.now statement) }
{
    match statement {
        Stmt::Call { method, .. } | Stmt::This { method, .. } => {
            add(ONE, methods[method.0 as usize])
        }
        Stmt::Register(sync) => add(ONE_REGISTERED, syncs[sync.0 as usize]),
        Stmt::Publish(event) => add(ONE, events[event.0 as usize]),
        _ => ONE,
    }
}

/// The listeners of an event.
pub(crate) fn event_cost(methods: &[Cost], listeners: &[Listener], event: usize) -> Cost
    requires { All (λ listener. CallbacksInRange (length methods.now) listener.body) listeners.now }
    ensures { result ≡ capped (total (map (listener_cost (cost_at methods.now)) (filter (λ listener. listener.event.0 == event) listeners.now))) }
{
    let mut sum = NOTHING;
    for listener in listeners {
        if listener.event.0 as usize == event {
            let body = callbacks_cost(methods, ONE_REGISTERED, listener.body.as_slice());
            sum = add(sum, body);
        }
    }
    sum
}

/// The four bodies of a synchronisation.
pub(crate) fn sync_cost(methods: &[Cost], sync: &SyncDecl) -> Cost
    requires { SyncInRange (length methods.now) sync.now }
    ensures { result ≡ capped (callbacks_cost (cost_at methods.now) (callbacks sync.now)) }
{
    let sum = callbacks_cost(methods, NOTHING, sync.before_commit.as_slice());
    let sum = callbacks_cost(methods, sum, sync.before_completion.as_slice());
    let sum = callbacks_cost(methods, sum, sync.after_commit.as_slice());
    callbacks_cost(methods, sum, sync.after_completion.as_slice())
}

// A callback's body, and what came before it.
fn callbacks_cost(methods: &[Cost], before: Cost, body: &[Stmt]) -> Cost
    requires range { CallbacksInRange (length methods.now) body.now }
    requires before { before ≡ capped before }
    ensures { result ≡ capped (plus before (callbacks_cost (cost_at methods.now) body.now)) }
{
    let mut sum = before;
    for statement in body {
        sum = add(sum, callback_cost(methods, *statement));
    }
    sum
}

fn callback_cost(methods: &[Cost], statement: Stmt) -> Cost
    requires { CallbackInRange (length methods.now) statement }
    ensures { result ≡ capped (callback_cost (cost_at methods.now) statement) }
{
    match statement {
        Stmt::Call { method, .. } => add(ONE, methods[method.0 as usize]),
        _ => ONE,
    }
}

/// What a client calls.
pub(crate) fn calls_cost(methods: &[Cost], calls: &[MethodNo]) -> Cost
    requires { MethodsInRange (length methods.now) calls.now }
    ensures { result ≡ capped (total (map (cost_at methods.now) calls.now)) }
{
    let mut sum = NOTHING;
    for method in calls {
        sum = add(sum, methods[method.0 as usize]);
    }
    sum
}
