ghost use Rattle.rs_mean_frames.specs.Laws.{PiecesBehave, ProgramsBehave, RoundsUnfold, LoopsUnfold, MainUnfolds};

/// Law: each piece of a frame whose called bodies behave leaves no more units than it had, shows nothing
/// without a unit, only adds events, and takes exactly its units. Used for pieces of any frame: what one
/// side owes the other is bound together by them, piece by piece.
pub fn pieces_behave()
    ensures { PiecesBehave }
{}

/// Law: the bodies of a crate's functions behave, at any depth of nested calls, and so does `main.rs`. Used
/// for the frames of a program.
pub fn programs_behave()
    ensures { ProgramsBehave }
{}

/// Law: turns unfold: a unit is taken, then a turn, and then what it says. Used for loops that another
/// meaning matches turn by turn.
pub fn rounds_unfold<S, A>()
    ensures { RoundsUnfold S A }
{}

/// Law: a loop unfolds in any frame whose called bodies behave. Used for `loop` in a body.
pub fn loops_unfold()
    ensures { LoopsUnfold }
{}

/// Law: `main.rs` and the body of a function run the same at any depth of nested calls that isn't less than
/// the units. Used for promises on called functions, which are kept at any depth.
pub fn main_unfolds()
    ensures { MainUnfolds }
{}
