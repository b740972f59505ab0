//! What frames of a stream are, as laws.
ghost use Rattle.std.specs.Prelude.{◌≡◌, ℕ, List, [], ◌++◌};
ghost use Rattle.sim_frame.specs.declared.frame.Frame.{Frame};
ghost use Rattle.sim_frame.specs.Stream.{Left, Reads};
ghost use Rattle.sim_frame.specs.Stream.Left.{Open, Broken};

/// A stream has one list of frames, and one thing behind them. (Does nothing: its clause is a law.)
pub fn one_reading()
    ensures { (bytes : List ℕ) (frames others : List Frame) (left right : Left)
        → Reads bytes frames left → Reads bytes others right → (frames ≡ others) × (left ≡ right) }
{}

/// Nothing of a stream is the front of a frame. (Does nothing: its clause is a law.)
pub fn the_empty_stream_is_open()
    ensures { Reads [] [] (Open []) }
{}

/// The frames of a stream are those of its front and those of what is kept behind them with the next piece, wherever
/// it is cut. (Does nothing: its clause is a law.)
pub fn frames_do_not_depend_on_pieces()
    ensures { (bytes held piece : List ℕ) (frames more : List Frame) (left : Left)
        → Reads bytes frames (Open held) → Reads (held ++ piece) more left
        → Reads (bytes ++ piece) (frames ++ more) left }
{}

/// Behind a length that no frame has comes no frame. (Does nothing: its clause is a law.)
pub fn a_bad_length_stays()
    ensures { (bytes piece : List ℕ) (frames : List Frame) (len : ℕ)
        → Reads bytes frames (Broken len) → Reads (bytes ++ piece) frames (Broken len) }
{}
