//! The parts of answers by their indexes.

ghost use Rattle.std.specs.Prelude.{◌≡◌, ◌≢◌, ◌⊎◌, map, option_map};
ghost use Rattle.dw_symbols.specs.Answer.{answer_shown, frame_shown, piece_shown};
ghost use Rattle.a2l_c.specs.Answers as model;
ghost use Rattle.a2l_c.specs.Answers.{ReportsAnswer, LacksAnswer, ReportsFrame, LacksFrame, ReportsPiece, LacksPiece};
ghost use Rattle.a2l_c.specs.Structs.{IsCopied, IsTooLong};

use crate::status::Status;
use crate::structs::{CAnswer, CFrame, CPiece, tell_answer, tell_frame, tell_piece};
use dw_symbols::{Answer, Frame, Piece};

/// The frame of an answer at an index, innermost first.
fn frame_of<'b>(answer: &'b Answer<'static>, j: usize) -> Option<&'b Frame<'static>>
    ensures { option_map (λ frame. frame_shown frame.now) result ≡ model.frame_of j (answer_shown answer.now) }
{
    match answer {
        Answer::Found { unit: _, frames } => frames.get(j),
        _ => None,
    }
}

/// The piece of an answer at an index.
fn piece_of<'b>(answer: &'b Answer<'static>, j: usize) -> Option<&'b Piece>
    ensures { option_map (λ piece. piece_shown piece.now) result ≡ model.piece_of j (answer_shown answer.now) }
{
    match answer {
        Answer::Pieces(pieces) => pieces.get(j),
        _ => None,
    }
}

/// Fills in what the answer at an index is.
pub(crate) fn answer_at(answers: &[Answer<'static>], i: usize, told: &mut CAnswer) -> Status
    ensures told { result ≡ Status.Done → ReportsAnswer i told.new (map answer_shown answers.now) }
    ensures outside { result ≡ Status.Outside → LacksAnswer i (map answer_shown answers.now) }
    ensures unfilled { result ≢ Status.Done → told.new ≡ told.old }
    ensures ends { (result ≡ Status.Done) ⊎ (result ≡ Status.Outside) }
{
    let Some(answer) = answers.get(i) else {
        return Status::Outside;
    };
    tell_answer(answer, told);
    Status::Done
}

/// Frame `j` of answer `i`.
fn frame_in<'b>(answers: &'b [Answer<'static>], i: usize, j: usize) -> Option<&'b Frame<'static>>
    ensures { option_map (λ frame. frame_shown frame.now) result ≡ model.frame_in (map answer_shown answers.now) i j }
{
    let answer = answers.get(i)?;
    frame_of(answer, j)
}

/// Piece `j` of the first answer.
fn piece_in<'b>(answers: &'b [Answer<'static>], j: usize) -> Option<&'b Piece>
    ensures { option_map (λ piece. piece_shown piece.now) result ≡ model.piece_in (map answer_shown answers.now) j }
{
    let answer = answers.get(0)?;
    piece_of(answer, j)
}

/// Fills in frame `j` of answer `i`.
pub(crate) fn frame_at(
    answers: &[Answer<'static>],
    i: usize,
    j: usize,
    buffer: &mut [u8],
    told: &mut CFrame<'static>,
) -> Status
    ensures told { result ≡ Status.Done
        → ReportsFrame i j told.new (IsCopied buffer.old buffer.new) (map answer_shown answers.now) }
    ensures short { result ≡ Status.Short
        → ReportsFrame i j told.new (IsTooLong buffer.old) (map answer_shown answers.now) }
    ensures outside { result ≡ Status.Outside → LacksFrame i j (map answer_shown answers.now) }
    ensures unfilled { result ≡ Status.Outside → told.new ≡ told.old }
    ensures uncopied { result ≢ Status.Done → buffer.new ≡ buffer.old }
    ensures ends { (result ≡ Status.Done) ⊎ ((result ≡ Status.Outside) ⊎ (result ≡ Status.Short)) }
{
    let Some(frame) = frame_in(answers, i, j) else {
        return Status::Outside;
    };
    tell_frame(frame, buffer, told)
}

/// Fills in piece `j` of the first answer.
pub(crate) fn piece_at(
    answers: &[Answer<'static>],
    j: usize,
    buffer: &mut [u8],
    told: &mut CPiece,
) -> Status
    ensures told { result ≡ Status.Done
        → ReportsPiece j told.new (IsCopied buffer.old buffer.new) (map answer_shown answers.now) }
    ensures short { result ≡ Status.Short
        → ReportsPiece j told.new (IsTooLong buffer.old) (map answer_shown answers.now) }
    ensures outside { result ≡ Status.Outside → LacksPiece j (map answer_shown answers.now) }
    ensures unfilled { result ≡ Status.Outside → told.new ≡ told.old }
    ensures uncopied { result ≢ Status.Done → buffer.new ≡ buffer.old }
    ensures ends { (result ≡ Status.Done) ⊎ ((result ≡ Status.Outside) ⊎ (result ≡ Status.Short)) }
{
    let Some(piece) = piece_in(answers, j) else {
        return Status::Outside;
    };
    tell_piece(piece, buffer, told)
}
