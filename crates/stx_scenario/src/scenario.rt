// The parts of a scenario, and the look-ups among them by number.
ghost use Rattle.std.specs.Prelude.{◌≡◌, ◌<◌, length, slice_get, Some};

use crate::{BeanNo, ClassNo, EventNo, List, ListenerNo, MethodNo, Name, RowNo, SyncNo};

/// A whole scenario: what the beans, methods and callbacks are, and which methods each client calls.
///
/// The places in these lists are the numbers that statements and rules name. The first 17 classes are the
/// built-in ones.
#[derive(Debug, Drop, PartialEq, Eq)]
pub struct Scenario {
    pub settings: Settings,
    /// The names of the events that methods publish and listeners listen to.
    pub events: List<Name>,
    /// Which client makes the next turn, by its number from 0.
    pub schedule: List<u32>,
    /// The names of the rows: first those with a first value, then the others that statements name.
    pub row_names: List<Name>,
    /// The first values of the first rows; never more than there are row names.
    pub values: List<i64>,
    pub classes: List<ClassDecl>,
    pub beans: List<Bean>,
    pub methods: List<Method>,
    pub syncs: List<SyncDecl>,
    pub listeners: List<Listener>,
    /// The top-level calls of each client, 1 to 64 clients.
    pub clients: List<Calls>,
}

/// What a client calls, one after the other.
pub type Calls = List<MethodNo>;

/// What holds for the whole scenario.
#[derive(Clone, Copy, Debug, PartialEq, Eq)]
pub struct Settings {
    /// How many connections the pool has, 1 to 64.
    pub pool: u32,
    pub mode: SyncMode,
    /// Whether the manager allows nested transactions by savepoints (`nestedTransactionAllowed`).
    pub nested: bool,
}

/// When the manager activates synchronisation (`AbstractPlatformTransactionManager`, `transactionSynchronization`).
#[derive(Clone, Copy, Debug, PartialEq, Eq)]
pub enum SyncMode {
    /// For empty scopes too (`SYNCHRONIZATION_ALWAYS`).
    Always,
    /// For transactions alone (`SYNCHRONIZATION_ON_ACTUAL_TRANSACTION`).
    Actual,
    /// Not at all (`SYNCHRONIZATION_NEVER`).
    Never,
}

/// A class of exceptions.
#[derive(Debug, Drop, PartialEq, Eq)]
pub struct ClassDecl {
    /// One to eight names joined by dots.
    pub name: Name,
    /// The class above; `Throwable` alone has none.
    pub parent: Option<ClassNo>,
}

/// A bean, with the attribute of those of its methods that have none of their own.
#[derive(Debug, Drop, PartialEq, Eq)]
pub struct Bean {
    pub name: Name,
    pub tx: Option<TxAttr>,
}

/// A method of a bean.
#[derive(Debug, Drop, PartialEq, Eq)]
pub struct Method {
    pub bean: BeanNo,
    pub name: Name,
    /// Its own attribute, which replaces the bean's wholly.
    pub tx: Option<TxAttr>,
    pub body: List<Stmt>,
}

/// A transaction attribute (`TransactionDefinition`, with the rules of `RuleBasedTransactionAttribute`).
#[derive(Debug, Drop, PartialEq, Eq)]
pub struct TxAttr {
    pub propagation: Propagation,
    pub read_only: bool,
    pub rules: List<Rule>,
}

/// How a method's transaction behaves beside one that is there (`Propagation`).
#[derive(Clone, Copy, Debug, PartialEq, Eq)]
pub enum Propagation {
    Required,
    Supports,
    Mandatory,
    RequiresNew,
    NotSupported,
    Never,
    Nested,
}

/// A rule on which exceptions roll back (`RollbackRuleAttribute`, `NoRollbackRuleAttribute`).
#[derive(Debug, Drop, PartialEq, Eq)]
pub struct Rule {
    /// Whether it rolls back; else it keeps, that is, commits.
    pub rollback: bool,
    pub by: RuleBy,
}

/// Which classes a rule matches.
#[derive(Debug, Drop, PartialEq, Eq)]
pub enum RuleBy {
    /// The class itself, and by depth those below it.
    Class(ClassNo),
    /// Each class whose name contains this text.
    Pattern(Name),
}

/// A synchronisation (`TransactionSynchronization`), with the body of each of its callbacks.
#[derive(Debug, Drop, PartialEq, Eq)]
pub struct SyncDecl {
    pub name: Name,
    /// Its place among the registrations: lower values come first (`Ordered`).
    pub order: i32,
    pub before_commit: List<Stmt>,
    pub before_completion: List<Stmt>,
    pub after_commit: List<Stmt>,
    pub after_completion: List<Stmt>,
}

/// A transactional event listener (`TransactionalEventListener`).
#[derive(Debug, Drop, PartialEq, Eq)]
pub struct Listener {
    pub name: Name,
    pub event: EventNo,
    pub phase: Phase,
    /// Its place among the listeners: lower values come first (`Ordered`).
    pub order: i32,
    /// Whether it runs at once where it can't be registered, since no transaction is live or no synchronisation is
    /// active (`fallbackExecution`).
    pub fallback: bool,
    pub body: List<Stmt>,
}

/// When a registered listener's body runs (`TransactionPhase`).
#[derive(Clone, Copy, Debug, PartialEq, Eq)]
pub enum Phase {
    BeforeCommit,
    AfterCommit,
    AfterRollback,
    AfterCompletion,
}

/// A statement of a body.
#[derive(Clone, Copy, Debug, PartialEq, Eq)]
pub enum Stmt {
    Read(RowNo),
    Write(RowNo, i64),
    Erase(RowNo),
    /// Adds to the row's value; an absent row counts as 0.
    Add(RowNo, i64),
    /// Throws where the row's value is less than this; an absent row counts as 0.
    Need(RowNo, i64),
    /// A call through the bean's proxy, which is intercepted where the method has an attribute.
    Call {
        method: MethodNo,
        catch: Option<ClassNo>,
    },
    /// A call of a method of the same bean, which is never intercepted.
    This {
        method: MethodNo,
        catch: Option<ClassNo>,
    },
    Throw(ClassNo),
    /// Marks the nearest scope rollback-only (`TransactionAspectSupport`, `setRollbackOnly` of the current status).
    Mark,
    Publish(EventNo),
    Register(SyncNo),
}

impl Scenario {
    /// The method with this number.
    pub fn method(&self, no: MethodNo) -> &Method
        requires { no.0 < length self.now.methods }
        ensures { slice_get self.now.methods no.0 ≡ Some result.now }
    {
        &self.methods.items[no.0 as usize]
    }

    /// The class with this number.
    pub fn class(&self, no: ClassNo) -> &ClassDecl
        requires { no.0 < length self.now.classes }
        ensures { slice_get self.now.classes no.0 ≡ Some result.now }
    {
        &self.classes.items[no.0 as usize]
    }

    /// The synchronisation with this number.
    pub fn sync(&self, no: SyncNo) -> &SyncDecl
        requires { no.0 < length self.now.syncs }
        ensures { slice_get self.now.syncs no.0 ≡ Some result.now }
    {
        &self.syncs.items[no.0 as usize]
    }

    /// The listener with this number.
    pub fn listener(&self, no: ListenerNo) -> &Listener
        requires { no.0 < length self.now.listeners }
        ensures { slice_get self.now.listeners no.0 ≡ Some result.now }
    {
        &self.listeners.items[no.0 as usize]
    }

    /// The top-level calls of the client with this number, from 0.
    pub fn calls(&self, client: u32) -> &Calls
        requires { client < length self.now.clients }
        ensures { slice_get self.now.clients client ≡ Some result.now }
    {
        &self.clients.items[client as usize]
    }
}
