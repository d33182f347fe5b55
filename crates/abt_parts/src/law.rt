//! Laws of lines and words.
ghost use Rattle.std.specs.Prelude.{◌≡◌, ℕ, List, map, Some, Ok, Err};
ghost use Rattle.abt_node.specs.Table.{new_table};
ghost use Rattle.abt_text.specs.Text.{Text, ◌⋅◌, newline};
ghost use Rattle.abt_perform.specs.CellText.{cell_text};
ghost use Rattle.abt_perform.specs.PortText.{fault_text, port_text};
ghost use Rattle.abt_perform.specs.declared.fault.Fault.{Fault};
ghost use Rattle.abt_lines.specs.Runs.{IsAnswering};
ghost use Rattle.abt_parts.specs.Cells.{EndsReading, EndsServing, ReadsLine, ServesLine, message_on, read_lines, read_text, served_lines};
ghost use Rattle.abt_parts.specs.PartObjects.{EndsByTotal, EndsSilent, PolicesObject, ReadsObject, ServesObject, ShapesObject, policed_objects, read_objects, served_objects, shaped_objects};
ghost use Rattle.abt_parts.specs.Police.{EndsPolicing, PolicesLine, policed_lines};
ghost use Rattle.abt_parts.specs.Shape.{EndsShaping, ShapesLine, shaped_lines};

/// Cells on lines are answered as those that are words: by `abt port` in the very same text, and by `abt cell` behind the line's number.
pub fn lines_are_as_words()
    ensures port { (capacity : ℕ) (cells : List Text)
        → served_lines (new_table 0 capacity) 1 (map Some cells) ≡ port_text capacity cells }
    ensures cell { (hex text : Text) → cell_text hex ≡ Ok text →
        text ≡ read_text (message_on (Some hex)) ⋅ newline }
    ensures fault { (hex : Text) (fault : Fault) → cell_text hex ≡ Err fault →
        read_text (message_on (Some hex)) ≡ fault_text fault }
{}

/// The steps of the servers say, one after the other, what a function of the lines and of the server says, in words and by objects.
pub fn steps_are_functions()
    ensures police { IsAnswering PolicesLine EndsPolicing (λ lines. policed_lines lines.held lines.policer) }
    ensures shape { IsAnswering ShapesLine EndsShaping (λ lines. shaped_lines lines.rate lines.shaper) }
    ensures cell { IsAnswering ReadsLine EndsReading (λ _. read_lines) }
    ensures port { IsAnswering ServesLine EndsServing (λ lines. served_lines lines.port) }
    ensures police_objects { IsAnswering PolicesObject EndsSilent
        (λ lines. policed_objects lines.held lines.policer) }
    ensures shape_objects { IsAnswering ShapesObject EndsSilent
        (λ lines. shaped_objects lines.rate lines.shaper) }
    ensures cell_objects { IsAnswering ReadsObject EndsSilent (λ _. read_objects) }
    ensures port_objects { IsAnswering ServesObject EndsByTotal (λ lines. served_objects lines.port) }
{}
