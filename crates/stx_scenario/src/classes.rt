// The built-in classes: their numbers, names and parents, in one list.
ghost use Rattle.std.specs.Prelude.{◌≡◌, IfOk, map, Some};
ghost use Rattle.std.specs.List.{list_any};
ghost use Rattle.std.specs.Str.{bytes_eq};
ghost use Rattle.stx_scenario.specs.BuiltIn.{built_in, constants, name_of, declaration};

use crate::{BUILT_IN_CLASSES, ClassDecl, ClassNo, List, Name, NoMemory};
use std::alloc::Global;

/// A built-in class: its name, and the class above it.
#[derive(Clone, Copy, Debug)]
struct BuiltIn {
    name: &'static str,
    parent: Option<ClassNo>,
}

/// The root: everything that can be thrown.
pub const THROWABLE: ClassNo = ClassNo(0);

/// What a caller may expect; by default it rolls nothing back.
pub const EXCEPTION: ClassNo = ClassNo(1);

/// What no caller expects; by default it rolls back.
pub const ERROR: ClassNo = ClassNo(2);

/// An exception that no signature names; by default it rolls back.
pub const RUNTIME_EXCEPTION: ClassNo = ClassNo(3);

/// A `need` that found less, or a registration where synchronisation is not active.
pub const ILLEGAL_STATE_EXCEPTION: ClassNo = ClassNo(4);

/// An `add` whose sum is no value.
pub const ARITHMETIC_EXCEPTION: ClassNo = ClassNo(5);

/// Spring's root of what it throws itself.
pub const NESTED_RUNTIME_EXCEPTION: ClassNo = ClassNo(6);

/// The root of the transaction manager's own exceptions.
pub const TRANSACTION_EXCEPTION: ClassNo = ClassNo(7);

/// No connection was in for a transaction, or a savepoint was wanted in one that is marked for rollback.
pub const CANNOT_CREATE_TRANSACTION_EXCEPTION: ClassNo = ClassNo(8);

/// A nested scope where savepoints are not allowed.
pub const NESTED_TRANSACTION_NOT_SUPPORTED_EXCEPTION: ClassNo = ClassNo(9);

/// The root of wrong uses of the transaction manager.
pub const TRANSACTION_USAGE_EXCEPTION: ClassNo = ClassNo(10);

/// A call whose propagation forbids what it met: a transaction, or none.
pub const ILLEGAL_TRANSACTION_STATE_EXCEPTION: ClassNo = ClassNo(11);

/// A use of the current transaction where there is none.
pub const NO_TRANSACTION_EXCEPTION: ClassNo = ClassNo(12);

/// A commit was asked for, and the transaction had been marked for rollback.
pub const UNEXPECTED_ROLLBACK_EXCEPTION: ClassNo = ClassNo(13);

/// The root of what access to data throws.
pub const DATA_ACCESS_EXCEPTION: ClassNo = ClassNo(14);

/// A row that another transaction has locked.
pub const CANNOT_ACQUIRE_LOCK_EXCEPTION: ClassNo = ClassNo(15);

/// A statement outside a transaction found no connection in.
pub const CANNOT_GET_JDBC_CONNECTION_EXCEPTION: ClassNo = ClassNo(16);

/// The built-in classes in the order of their numbers.
static BUILT_IN: [BuiltIn; BUILT_IN_CLASSES] = [
    BuiltIn {
        name: "Throwable",
        parent: None,
    },
    BuiltIn {
        name: "Exception",
        parent: Some(THROWABLE),
    },
    BuiltIn {
        name: "Error",
        parent: Some(THROWABLE),
    },
    BuiltIn {
        name: "RuntimeException",
        parent: Some(EXCEPTION),
    },
    BuiltIn {
        name: "IllegalStateException",
        parent: Some(RUNTIME_EXCEPTION),
    },
    BuiltIn {
        name: "ArithmeticException",
        parent: Some(RUNTIME_EXCEPTION),
    },
    BuiltIn {
        name: "NestedRuntimeException",
        parent: Some(RUNTIME_EXCEPTION),
    },
    BuiltIn {
        name: "TransactionException",
        parent: Some(NESTED_RUNTIME_EXCEPTION),
    },
    BuiltIn {
        name: "CannotCreateTransactionException",
        parent: Some(TRANSACTION_EXCEPTION),
    },
    BuiltIn {
        name: "NestedTransactionNotSupportedException",
        parent: Some(CANNOT_CREATE_TRANSACTION_EXCEPTION),
    },
    BuiltIn {
        name: "TransactionUsageException",
        parent: Some(TRANSACTION_EXCEPTION),
    },
    BuiltIn {
        name: "IllegalTransactionStateException",
        parent: Some(TRANSACTION_USAGE_EXCEPTION),
    },
    BuiltIn {
        name: "NoTransactionException",
        parent: Some(TRANSACTION_USAGE_EXCEPTION),
    },
    BuiltIn {
        name: "UnexpectedRollbackException",
        parent: Some(TRANSACTION_EXCEPTION),
    },
    BuiltIn {
        name: "DataAccessException",
        parent: Some(NESTED_RUNTIME_EXCEPTION),
    },
    BuiltIn {
        name: "CannotAcquireLockException",
        parent: Some(DATA_ACCESS_EXCEPTION),
    },
    BuiltIn {
        name: "CannotGetJdbcConnectionException",
        parent: Some(DATA_ACCESS_EXCEPTION),
    },
];

/// The declarations of the built-in classes, with which the classes of every scenario begin.
pub fn built_in_classes(alloc: Global) -> Result<List<ClassDecl>, NoMemory>
    ensures classes { IfOk result (λ classes. classes ≡ built_in) }

    // Each constant is the number of the class of its name.
    ensures constants { map name_of constants ≡ map (λ class. Some class.name) built_in }
{
    declarations(alloc, &BUILT_IN)
}

/// Whether a built-in class has this name.
pub fn is_built_in(name: &str) -> bool
    ensures { result ≡ list_any (λ class. bytes_eq class.name name.now) built_in }
{
    has_name(&BUILT_IN, name)
}

fn has_name(table: &[BuiltIn], name: &str) -> bool
    ensures { result ≡ list_any (λ class. bytes_eq class.name.now name.now) table.now }
{
    table.iter().any(|class| class.name == name)
}

fn declarations(alloc: Global, table: &[BuiltIn]) -> Result<List<ClassDecl>, NoMemory>
    ensures { IfOk result (λ classes. classes ≡ map declaration table.now) }
{
    let mut classes = List::new(alloc);
    for class in table {
        let name = Name::new(alloc, class.name)?;
        let parent = class.parent;
        classes.push(ClassDecl { name, parent })?;
    }
    Ok(classes)
}
