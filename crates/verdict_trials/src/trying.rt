// A list of calls on a passed image, with a memory of two kinds: page 0 on the chip, pages 1 to 4 on the board.
use crate::asking::EXAMPLE;
use calls::answer::Answer;
use calls::call::Call;
use inspection::inspecting::inspect;
use ledger::owned::OwnedPages;
use ledger::row::Row;
use machine::board::Board;
use memories::board::BoardMemory;
use memories::joined::Joined;
use memories::on_chip::OnChip;
use refusals::Refusal;
use std::test::Fail;
use trial::trying::trial;

const TICKS: [u16; 6] = [0, 0, 256, 0, 0, 0];

// What each call answers: cycles, pages or a byte, or a refusal.
const ANSWERS: [Result<usize, Refusal>; 10] = [
    Ok(0),
    Ok(0),
    Ok(13),
    Ok(0),
    Ok(7),
    Err(Refusal::NoSuchPage),
    Ok(5),
    Err(Refusal::TickTooLarge { place: 0 }),
    Ok(2),
    Ok(0),
];

// A run that stopped tells what stopped it.
fn told(answer: Answer) -> Result<usize, Refusal> {
    match answer {
        Answer::Step(answer) => answer.map(|stepped| stepped.cycles as usize),
        Answer::Run(answer) => answer.and_then(|report| match report.stop {
            None => Ok(report.cycles as usize),
            Some(refusal) => Err(refusal),
        }),
        Answer::Reset => Ok(0),
        Answer::PageCount(pages) => Ok(pages as usize),
        Answer::Peek(answer) => answer.map(usize::from),
        Answer::Poke(answer) => answer.map(|_| 0),
    }
}

#[test]
fn a_trial_answers_what_each_call_did(rt: HostRuntime) -> Result<(), Fail> {
    let mut rows = [Row::blank(); 7];
    let passed = inspect(&EXAMPLE, OwnedPages { first: 3, last: 3 }, &mut rows)?;
    let mut bytes = [0u8; 1024];
    let mut memory = Joined {
        first: OnChip::new(),
        second: BoardMemory::new(&mut bytes),
    };
    let calls = [
        Call::Poke {
            page: 3,
            offset: 5,
            byte: 9,
        },
        Call::Poke {
            page: 4,
            offset: 5,
            byte: 7,
        },
        Call::Run { ticks: &TICKS },
        Call::Peek { page: 3, offset: 5 },
        Call::Peek { page: 4, offset: 5 },
        Call::Peek { page: 5, offset: 0 },
        Call::PageCount,
        Call::Step { tick: 512 },
        Call::Step { tick: 0 },
        Call::Reset,
    ];
    let mut answers = [Answer::Reset; 11];
    let mut exports = [0u32; 4];
    let mut board = Board::new();
    let done = trial(
        &passed,
        &mut board,
        &mut memory,
        &calls,
        &mut exports,
        &mut answers,
    );
    assert_eq!(rt; done, 10);
    for (answer, expected) in answers.iter().zip(&ANSWERS) {
        assert_eq!(rt; told(*answer), *expected);
    }
    assert_eq!(rt; board.view().pc, 1);
    Ok(())
}
