//! The lines of a run, by what gives each a text of its own: a row that the Store has stored has a value, a row that is
//! shown by digests has an object, and where chunks are named there is one.
#![tactic(auto)]

ghost use Rattle.std.specs.Prelude.{◌≡◌, List, map};
ghost use Rattle.std.specs.List.{AllByRecursion};
ghost use Rattle.table_model.specs.declared.line.TextLine.{TextLine};
ghost use Rattle.step_tables.specs.Lines.{line_of};
ghost use Rattle.world_tables.specs.Turns.{Happening, transcript_of};
ghost use Rattle.wire_tables.specs.Runs.{wire_turns};
ghost use Rattle.wire_laws.specs.Runs.{AreBuilt};
ghost use Rattle.line_widths.specs.Widths.{HasForm};
ghost use Rattle.form_laws.specs.Forms.{HasLineForm};

/// In every run of wires each answer has the form that gives its line a text of its own.
pub fn every_run_has_forms()
    ensures { (run : List Happening) → AreBuilt run
        → AllByRecursion HasLineForm (transcript_of (wire_turns run)) }
{}

/// In every transcript of a run of wires each line of the program has the form that gives it a text of its own.
pub fn every_transcript_has_forms()
    ensures { (run : List Happening) (told : List TextLine) → AreBuilt run
        → map line_of told ≡ transcript_of (wire_turns run) → AllByRecursion HasForm told }
{}

/// A line of the program has the form where the line of the tables that it stands for has.
pub fn lines_have_forms_as_told()
    ensures { (line : TextLine) → HasLineForm (line_of line) → HasForm line }
{}
