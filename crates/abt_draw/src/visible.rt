//! The events that a picture shows.
ghost use Rattle.std.specs.Prelude.{◌≡◌};
ghost use Rattle.abt_draw.specs.Visible as spec;

use crate::sheet::Sheet;
use abt_chart::Told;

/// The events that are shown, with what they told.
pub(crate) fn shown_in<'a>(sheet: &Sheet<'a>) -> &'a [Told]
    ensures { result.now ≡ spec.shown_in sheet.now }
{
    let told = sheet.chart.told.as_slice();
    let rest = match told.get(sheet.rows.first..) {
        Some(rest) => rest,
        None => &[],
    };
    match rest.get(..sheet.rows.levels.len()) {
        Some(shown) => shown,
        None => rest,
    }
}
