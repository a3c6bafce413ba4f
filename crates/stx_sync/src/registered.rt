// A registration.
use stx_base::Label;

/// A synchronisation object that was registered, with its order value.
#[derive(Clone, Copy, Debug, PartialEq, Eq)]
pub struct Registered {
    pub label: Label,
    pub order: i32,
}
