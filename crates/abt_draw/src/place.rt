//! Columns and rows as places of a picture.
ghost use Rattle.std.specs.Prelude.{◌≡◌, ◌<◌};
ghost use Rattle.abt_draw.specs.Places as spec;

/// The events that are shown, one behind the other. Events count from 0.
#[derive(Clone, Copy, Debug, PartialEq, Eq)]
pub struct Span {
    /// The first one.
    pub first: usize,
    /// How many are shown.
    pub count: u32,
}

/// The rows of a picture: one for each event that is shown, unless it is on a lifeline that isn't. Events count from 0.
#[derive(Clone, Copy, Debug)]
pub struct Rows<'a> {
    /// The first event that is shown.
    pub first: usize,
    /// How many rows there are.
    pub count: u32,
    /// How many there are up to each event that is shown, and with it.
    pub levels: &'a [u32],
}

/// How far down an event is: 0 before the first that is shown, 1 for the first row, and one more than there are rows behind the last.
pub fn level_of(rows: &Rows<'_>, event: usize) -> u32
    requires { rows.now.count < u32.MAX }
    ensures { result ≡ spec.level_of rows.now event }
{
    if event < rows.first {
        return 0;
    }
    match rows.levels.get(event - rows.first) {
        Some(level) => *level,
        None => rows.count + 1,
    }
}

/// The middle of a column, in tenths of a unit.
pub fn x_of(left: u32, step: u32, column: u32) -> u64
    ensures { result ≡ spec.x_of left step column }
{
    u64::from(left) + u64::from(step) * u64::from(column)
}

/// The middle of a row, in tenths of a unit.
pub fn y_of(level: u32) -> u64
    ensures { result ≡ spec.y_of level }
{
    400 + 260 * u64::from(level)
}
