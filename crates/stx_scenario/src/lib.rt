//! A scenario as plain data: beans, methods with transaction attributes, classes, callbacks and the calls of clients.
#![tactic(auto)]

mod classes;
mod copies;
mod limits;
mod list;
mod memory;
mod name;
mod named;
mod numbers;
mod roomy;
mod scenario;

pub use classes::{
    ARITHMETIC_EXCEPTION, CANNOT_ACQUIRE_LOCK_EXCEPTION, CANNOT_CREATE_TRANSACTION_EXCEPTION,
    CANNOT_GET_JDBC_CONNECTION_EXCEPTION, DATA_ACCESS_EXCEPTION, ERROR, EXCEPTION,
    ILLEGAL_STATE_EXCEPTION, ILLEGAL_TRANSACTION_STATE_EXCEPTION, NESTED_RUNTIME_EXCEPTION,
    NESTED_TRANSACTION_NOT_SUPPORTED_EXCEPTION, NO_TRANSACTION_EXCEPTION, RUNTIME_EXCEPTION,
    THROWABLE, TRANSACTION_EXCEPTION, TRANSACTION_USAGE_EXCEPTION, UNEXPECTED_ROLLBACK_EXCEPTION,
    built_in_classes, is_built_in,
};
pub use limits::{
    BUILT_IN_CLASSES, DEEPEST_CLASS, GREATEST_RANK, GREATEST_WEIGHT, MOST_BEANS, MOST_CALLS,
    MOST_CLASSES, MOST_CLIENTS, MOST_CONNECTIONS, MOST_EVENTS, MOST_INPUT_BYTES, MOST_LISTENERS,
    MOST_METHODS, MOST_ROWS, MOST_RULES, MOST_STATEMENTS, MOST_SYNCS, MOST_TURNS,
};
pub use list::List;
pub use memory::NoMemory;
pub use name::Name;
pub use named::HasName;
pub use numbers::{BeanNo, ClassNo, EventNo, ListenerNo, MethodNo, RowNo, SyncNo};
pub use roomy::Roomy;
pub use scenario::{
    Bean, Calls, ClassDecl, Listener, Method, Phase, Propagation, Rule, RuleBy, Scenario, Settings,
    Stmt, SyncDecl, SyncMode, TxAttr,
};
