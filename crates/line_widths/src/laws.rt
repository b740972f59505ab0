ghost use Rattle.table_model.specs.declared.line.TextLine.{TextLine};
ghost use Rattle.transcript_text.specs.OneForm.{HasText};
ghost use Rattle.line_widths.specs.Widths.{HasWidths, HasForm};

/// A line of these widths has the text of one line alone where a stored row has a value, a row that is shown by digests
/// has an object, and there is a chunk where chunks are named.
pub fn lines_have_texts()
    ensures { (line : TextLine) → HasWidths line → HasForm line → HasText line }
{}
