//! What else every run with gateways keeps: its lines have the forms that give each a text of its own, and no gateway
//! has started more often, or drawn more tokens since, than the run has events.
#![tactic(auto)]

ghost use Rattle.std.specs.Prelude.{◌≡◌, List, length, map};
ghost use Rattle.std.specs.List.{AllByRecursion};
ghost use Rattle.table_model.specs.declared.line.TextLine.{TextLine};
ghost use Rattle.step_tables.specs.Lines.{line_of};
ghost use Rattle.world_tables.specs.Turns.{Happening, transcript_of};
ghost use Rattle.wire_laws.specs.Runs.{AreBuilt};
ghost use Rattle.line_widths.specs.Widths.{HasForm};
ghost use Rattle.form_laws.specs.Forms.{HasLineForm};
ghost use Rattle.gated_tables.specs.Net.{start};
ghost use Rattle.gated_tables.specs.Runs.{net_from, net_turns};
ghost use Rattle.gated_laws.specs.Runs.{AreDeclaredFirst};
ghost use Rattle.net_laws.specs.Few.{AreGatesFew};

/// In every run with gateways each answer has the form that gives its line a text of its own.
pub fn every_run_of_nets_has_forms()
    ensures { (run : List Happening) → AreDeclaredFirst run → AreBuilt run
        → AllByRecursion HasLineForm (transcript_of (net_turns run)) }
{}

/// In every transcript of a run with gateways each line of the program has the form that gives it a text of its own.
pub fn every_transcript_of_nets_has_forms()
    ensures { (run : List Happening) (told : List TextLine) → AreDeclaredFirst run → AreBuilt run
        → map line_of told ≡ transcript_of (net_turns run) → AllByRecursion HasForm told }
{}

/// In every run with gateways none has started more often, nor drawn more tokens since, than the run has events.
pub fn gates_are_few()
    ensures { (run : List Happening) → AreGatesFew (length run) (net_from start run) }
{}
