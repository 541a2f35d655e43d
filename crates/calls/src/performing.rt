// Performing calls on a board with a memory.
ghost use Rattle.std.specs.Prelude.{◌≡◌, min, length, take};
ghost use Rattle.calls.specs.Calling.{call_of, calls_of, state_of};
ghost use Rattle.calls.specs.Performing.{Performs, PerformsAll};

use crate::answer::Answer;
use crate::call::Call;
use machine::board::Board;
use memories::memory::Memory;

// Performs one call. A run writes its exports into the given list, from place 0 on.
pub fn perform<M: Memory>(
    board: &mut Board,
    image: &[u32],
    call: Call,
    memory: &mut M,
    exports: &mut [u32],
) -> Answer
    ensures performs { Performs image.now (call_of (length exports.old) call.entry) (state_of board.old (M.meaning memory.old)) exports.old (state_of board.new (M.meaning memory.new)) exports.new result }
    ensures rest { M.frame memory.new ≡ M.frame memory.old }
{
    match call {
        Call::Step { tick } => Answer::Step(board.step(image, tick, memory)),
        Call::Run { ticks } => Answer::Run(board.run(image, ticks, memory, exports)),
        Call::Reset => {
            board.reset();
            Answer::Reset
        }
        Call::PageCount => Answer::PageCount(memory.page_count()),
        Call::Peek { page, offset } => Answer::Peek(memory.peek(page, offset)),
        Call::Poke { page, offset, byte } => Answer::Poke(memory.poke(page, offset, byte)),
    }
}

// Performs the calls in order, as many as the lent list of answers has places for, and says how many those are: nothing
// is allocated.
pub fn perform_all<M: Memory>(
    board: &mut Board,
    image: &[u32],
    calls: &[Call],
    memory: &mut M,
    exports: &mut [u32],
    answers: &mut [Answer],
) -> usize
    ensures count { result ≡ min (length calls.now) (length answers.old) }
    ensures performs { PerformsAll image.now (calls_of (length exports.old) (take result calls.now)) (state_of board.old (M.meaning memory.old)) exports.old answers.old (state_of board.new (M.meaning memory.new)) exports.new answers.new }
    ensures rest { M.frame memory.new ≡ M.frame memory.old }
{
    let count = calls.len().min(answers.len());
    let first = &calls[..count];
    // By place, since a proof knows nothing of answers that are written through a zip with `iter_mut`.
    for (place, call) in first.iter().enumerate() {
        answers[place] = perform(board, image, *call, memory, exports);
    }
    count
}
