// Trying a passed image.
ghost use Rattle.std.specs.Prelude.{◌≡◌, ◌<◌, min, length, take};
ghost use Rattle.ledger.specs.Safety.{start};
ghost use Rattle.calls.specs.Calling.{calls_of, state_of};
ghost use Rattle.calls.specs.Performing.{PerformsAll};
ghost use Rattle.inspection.specs.Inspects.{Certified};
ghost use Rattle.trial.specs.Trials.{TrialSafe};

use calls::answer::Answer;
use calls::call::Call;
use calls::performing::perform_all;
use inspection::passed::PassedImage;
use machine::board::Board;
use memories::memory::Memory;

// Resets the board and performs the calls in order, as many as there are places for answers, and says how many those are.
// A run writes its exports into the given list, from place 0 on.
pub fn trial<M: Memory>(
    passed: &PassedImage,
    board: &mut Board,
    memory: &mut M,
    calls: &[Call],
    exports: &mut [u32],
    answers: &mut [Answer],
) -> usize
    ensures count { result ≡ min (length calls.now) (length answers.old) }
    ensures performs { PerformsAll passed.now.words.now (calls_of (length exports.old) (take result calls.now)) (start (M.meaning memory.old)) exports.old answers.old (state_of board.new (M.meaning memory.new)) exports.new answers.new }
    ensures rest { M.frame memory.new ≡ M.frame memory.old }
    ensures safe { Certified passed.now → passed.now.owned.last < (M.meaning memory.old).pages → TrialSafe passed.now.words.now passed.now.owned passed.now.depth (M.meaning memory.old) (calls_of (length exports.old) (take result calls.now)) answers.new (state_of board.new (M.meaning memory.new)) }
{
    board.reset();
    perform_all(board, passed.words(), calls, memory, exports, answers)
}
