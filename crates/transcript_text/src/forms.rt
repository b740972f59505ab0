ghost use Rattle.std.specs.Prelude.{◌≡◌, ◌≢◌, ◌<◌, ◌^◌, ℕ, List};
ghost use Rattle.std.specs.List.{AllByRecursion};
ghost use Rattle.table_model.specs.declared.line.TextLine.{TextLine};
ghost use Rattle.transcript_text.specs.Text.{text_of, transcript_text, stop_text};
ghost use Rattle.transcript_text.specs.OneForm.{HasText};

/// A text is the text of one line alone. The values are those of the program's types; a stored row has a value, a row
/// that is shown by digests has an object, and there is a chunk where chunks are named.
pub fn one_form()
    ensures { (a b : TextLine) → HasText a → HasText b → text_of a ≡ text_of b → a ≡ b }
{}

/// A text is the text of one transcript alone, of lines as at `one_form`.
pub fn one_transcript()
    ensures { (xs ys : List TextLine) → AllByRecursion HasText xs → AllByRecursion HasText ys
        → transcript_text xs ≡ transcript_text ys → xs ≡ ys }
{}

/// The text of a line that says why a run stopped is that of no other line, and of one status, one line and one code
/// alone.
pub fn stop_apart()
    ensures apart { (told : TextLine) (status line code : ℕ) → text_of told ≢ stop_text status line code }
    ensures one { (s l c status line code : ℕ) → s < 2 ^ 64 → l < 2 ^ 64 → c < 2 ^ 64 → status < 2 ^ 64 → line < 2 ^ 64
        → code < 2 ^ 64
        → stop_text s l c ≡ stop_text status line code → (s ≡ status) × (l ≡ line) × (c ≡ code) }
{}
