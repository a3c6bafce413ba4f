// The keys and types of a scenario file: the one description that all stages on single values share.
ghost use Rattle.std.specs.Prelude.{◌≡◌, map};
ghost use Rattle.stx_walk.specs.Schema.{key_of, root_keys, keys_of};

use stx_scenario::{
    MOST_BEANS, MOST_CALLS, MOST_CLASSES, MOST_CLIENTS, MOST_EVENTS, MOST_LISTENERS, MOST_METHODS,
    MOST_ROWS, MOST_RULES, MOST_STATEMENTS, MOST_SYNCS, MOST_TURNS,
};

/// A kind of table inside a file.
#[derive(Clone, Copy, Debug, PartialEq, Eq)]
pub enum Shape {
    Settings,
    Row,
    Class,
    Bean,
    Method,
    Sync,
    Listener,
    Client,
    Tx,
}

/// What a single value has to be.
#[derive(Clone, Copy, Debug, PartialEq, Eq)]
pub enum Leaf {
    /// Any string: what it names is looked up later.
    Text,
    Name,
    ClassName,
    /// `always`, `actual` or `never`.
    ModeWord,
    PropagationWord,
    PhaseWord,
    Statement,
    Rule,
    Flag,
    /// 1 to 64 connections.
    Pool,
    /// An order value, within an `i32`.
    Order,
    /// A client's number, 0 to 63.
    Client,
    /// A row's value, within an `i64`.
    RowValue,
}

/// What the value under a key has to be.
#[derive(Clone, Copy, Debug, PartialEq, Eq)]
pub enum Kind {
    Value(Leaf),
    /// An array of single values, with at most so many entries.
    Values(Leaf, usize),
    Table(Shape),
    /// An array of tables, with at least and at most so many entries.
    Tables(Shape, usize, usize),
}

/// A key that a table may have.
#[derive(Clone, Copy, Debug)]
pub struct Field {
    pub key: &'static str,
    pub required: bool,
    pub kind: Kind,
}

/// The statements of a body.
const STATEMENTS: Kind = Kind::Values(Leaf::Statement, MOST_STATEMENTS);

/// A field, by what it says.
macro_rules! field {
    ($key:literal, $required:literal, $kind:expr) => {
        Field {
            key: $key,
            required: $required,
            kind: $kind,
        }
    };
}

/// A key that a table has to have.
macro_rules! required {
    ($key:literal, $kind:expr) => {
        field!($key, true, $kind)
    };
}

/// A key that a table may have.
macro_rules! optional {
    ($key:literal, $kind:expr) => {
        field!($key, false, $kind)
    };
}

/// The name of what a table states.
const NAME: Field = required!("name", Kind::Value(Leaf::Name));

/// Which of the callbacks at one point come first.
const ORDER: Field = optional!("order", Kind::Value(Leaf::Order));

static ROOT: [Field; 10] = [
    optional!("events", Kind::Values(Leaf::Name, MOST_EVENTS)),
    optional!("schedule", Kind::Values(Leaf::Client, MOST_TURNS)),
    optional!("settings", Kind::Table(Shape::Settings)),
    optional!("rows", Kind::Tables(Shape::Row, 0, MOST_ROWS)),
    optional!("classes", Kind::Tables(Shape::Class, 0, MOST_CLASSES)),
    optional!("beans", Kind::Tables(Shape::Bean, 0, MOST_BEANS)),
    optional!("methods", Kind::Tables(Shape::Method, 0, MOST_METHODS)),
    optional!("syncs", Kind::Tables(Shape::Sync, 0, MOST_SYNCS)),
    optional!(
        "listeners",
        Kind::Tables(Shape::Listener, 0, MOST_LISTENERS)
    ),
    required!("clients", Kind::Tables(Shape::Client, 1, MOST_CLIENTS)),
];

static SETTINGS: [Field; 3] = [
    optional!("pool", Kind::Value(Leaf::Pool)),
    optional!("sync", Kind::Value(Leaf::ModeWord)),
    optional!("nested", Kind::Value(Leaf::Flag)),
];

static ROW: [Field; 2] = [NAME, required!("value", Kind::Value(Leaf::RowValue))];

static CLASS: [Field; 2] = [
    required!("name", Kind::Value(Leaf::ClassName)),
    required!("parent", Kind::Value(Leaf::Text)),
];

static BEAN: [Field; 2] = [NAME, optional!("tx", Kind::Table(Shape::Tx))];

static METHOD: [Field; 4] = [
    required!("bean", Kind::Value(Leaf::Text)),
    NAME,
    optional!("tx", Kind::Table(Shape::Tx)),
    optional!("body", STATEMENTS),
];

static SYNC: [Field; 6] = [
    NAME,
    ORDER,
    optional!("before_commit", STATEMENTS),
    optional!("before_completion", STATEMENTS),
    optional!("after_commit", STATEMENTS),
    optional!("after_completion", STATEMENTS),
];

static LISTENER: [Field; 6] = [
    NAME,
    required!("event", Kind::Value(Leaf::Text)),
    optional!("phase", Kind::Value(Leaf::PhaseWord)),
    ORDER,
    optional!("fallback", Kind::Value(Leaf::Flag)),
    optional!("body", STATEMENTS),
];

static CLIENT: [Field; 1] = [required!("calls", Kind::Values(Leaf::Text, MOST_CALLS))];

static TX: [Field; 3] = [
    optional!("propagation", Kind::Value(Leaf::PropagationWord)),
    optional!("read_only", Kind::Value(Leaf::Flag)),
    optional!("rules", Kind::Values(Leaf::Rule, MOST_RULES)),
];

/// The keys of the root, in walk order, with the most entries of each array.
pub fn root_fields() -> &'static [Field]
    ensures { map key_of result.now ≡ root_keys }
{
    &ROOT
}

/// The keys of a table of some shape, in walk order.
pub fn fields_of(shape: Shape) -> &'static [Field]
    ensures { map key_of result.now ≡ keys_of shape }
{
    match shape {
        Shape::Settings => &SETTINGS,
        Shape::Row => &ROW,
        Shape::Class => &CLASS,
        Shape::Bean => &BEAN,
        Shape::Method => &METHOD,
        Shape::Sync => &SYNC,
        Shape::Listener => &LISTENER,
        Shape::Client => &CLIENT,
        Shape::Tx => &TX,
    }
}
