//! Whether a line is drawn at all.
ghost use Rattle.std.specs.Prelude.{◌↔◌, IsTrue};
ghost use Rattle.std.specs.Option.{option_map};
ghost use Rattle.abt_progress.specs.Deciding.{IsDrawn};

/// Whether the line is drawn: it is wanted, standard error is a terminal, and its kind, as the environment's `TERM` names it, is known and
/// isn't `dumb` (docs/FORMATS.md, "Progress").
pub fn draws_line(is_wanted: bool, is_terminal: bool, kind: Option<&str>) -> bool
    ensures { IsTrue result ↔ IsDrawn is_wanted is_terminal (option_map (λ name. name.now) kind.entry) }
{
    match kind {
        Some(kind) => is_wanted && is_terminal && kind != "dumb",
        None => false,
    }
}
