// Whose history a line has its place in.
ghost use Rattle.std.specs.Prelude.{◌≡◌};
ghost use Rattle.stx_base.specs.Lines as texts;
ghost use Rattle.stx_trace.specs.LineKinds.{shared_of};

use stx_base::Line;

/// The history that holds the entry of a line's call.
#[derive(Clone, Copy)]
pub enum History {
    Pool,
    Store,
    /// The line is of no shared call.
    Neither,
}

impl History {
    /// The history of the entry that this line is of.
    pub fn of(line: &Line) -> Self
        ensures { shared_of result ≡ texts.shared_by line.now }
    {
        match line {
            Line::Take(_) | Line::Give(_) => History::Pool,
            Line::Begin(_)
            | Line::Row { .. }
            | Line::Auto { .. }
            | Line::Savepoint(_)
            | Line::BackTo(_)
            | Line::Release(_)
            | Line::Commit { .. }
            | Line::Rollback(_) => History::Store,
            _ => History::Neither,
        }
    }
}
