// The one error of a read and of a write.

/// A read or a write failed. Its object's count of faults has risen, or stands at its last value.
#[derive(Clone, Copy, Debug, PartialEq, Eq)]
pub struct Failed;
