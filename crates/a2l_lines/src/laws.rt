//! What holds of every pool over a file, whatever its threads do.

ghost use Rattle.a2l_lines.specs.Answers.{EverySenderReceivesAnswers};

use ticket_board::ring::law_of_board;

/// For every file that opens, every list of queries by each sender, every number of workers and
/// every order of the moves of their board: each sender has received, after any of the moves, the
/// file's answers to a beginning of its queries, in its order, each once; each number that some
/// worker has done was answered by one move; and a sender that has received as many answers as it
/// asked queries, and asks no more, as one that is closed, has the answers to all of them, and
/// stays so under all later moves.
///
/// An answer is that of the definitions in `dw_model`, shown as a tree of numbers; different
/// answers have different trees. So it is over contexts, which are solvers of this meaning.
pub fn law_of_answers()
    ensures answers { EverySenderReceivesAnswers }
{
    law_of_board();
}
