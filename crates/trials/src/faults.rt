// Where a step or a run says no: each fault, their order, and what keeps a run from starting.
use machine::board::Board;
use memories::on_chip::OnChip;
use refusals::Refusal;
use std::test::Fail;

// What stops an image that is run from reset with so many exports allowed, and after how many ticks.
fn stop_of(image: &[u32], room: usize) -> Result<(Option<Refusal>, usize), Refusal> {
    let mut board = Board::new();
    let mut memory = OnChip::new();
    let mut exports = [0; 2];
    if room > 2 {
        return Ok((None, 0));
    }
    let report = board.run(image, &[0; 40], &mut memory, &mut exports[0..room])?;
    Ok((report.stop, report.ticks))
}

// An image that stops, the stop, and the ticks before it.
#[derive(Clone, Copy)]
struct Case {
    image: [u32; 4],
    stop: Refusal,
    ticks: usize,
}

const CASES: [Case; 14] = [
    // An undefined word.
    Case {
        image: [0x3A000, 0x10000, 0x3C000, 0],
        stop: Refusal::UndefinedWord { pc: 2 },
        ticks: 1,
    },
    // iret with nothing in service, and an empty stack.
    Case {
        image: [0x3A000, 0x3A000, 0, 0],
        stop: Refusal::NotInService { pc: 1 },
        ticks: 0,
    },
    // ret on an empty stack.
    Case {
        image: [0x3A000, 0x39000, 0, 0],
        stop: Refusal::StackEmpty { pc: 1 },
        ticks: 0,
    },
    // A branch before the image, behind it, and a word at its end.
    Case {
        image: [0x3A000, 0x3BFFE, 0, 0],
        stop: Refusal::NextOutside { pc: 1 },
        ticks: 0,
    },
    Case {
        image: [0x3A000, 0x3B003, 0, 0],
        stop: Refusal::NextOutside { pc: 1 },
        ticks: 0,
    },
    Case {
        image: [0x3A000, 0x3B002, 0, 0x10000],
        stop: Refusal::NextOutside { pc: 3 },
        ticks: 1,
    },
    // A store at the end of the image to a page that is not there: the address comes first.
    Case {
        image: [0x3A000, 0x12E01, 0x3B001, 0x2E004],
        stop: Refusal::NextOutside { pc: 3 },
        ticks: 2,
    },
    // The same inside the image, stored and loaded.
    Case {
        image: [0x3A000, 0x12E01, 0x2E004, 0],
        stop: Refusal::MissingPage { pc: 2 },
        ticks: 1,
    },
    Case {
        image: [0x3A000, 0x12F01, 0x2E005, 0],
        stop: Refusal::MissingPage { pc: 2 },
        ticks: 1,
    },
    // A call to itself fills the stack.
    Case {
        image: [0x3A000, 0x38000, 0, 0],
        stop: Refusal::StackFull { pc: 1 },
        ticks: 16,
    },
    // A call at the end of the image: its return address is outside, before the target is gone to.
    Case {
        image: [0x3A000, 0x3B002, 0, 0x38FFE],
        stop: Refusal::NextOutside { pc: 3 },
        ticks: 1,
    },
    // A call not taken at the end of the image.
    Case {
        image: [0x3A000, 0x3B002, 0, 0x34FFE],
        stop: Refusal::NextOutside { pc: 3 },
        ticks: 1,
    },
    // An export with a full list, and one at the end of the image.
    Case {
        image: [0x3A000, 0x2E000, 0x3BFFF, 0],
        stop: Refusal::ExportsFull { pc: 1 },
        ticks: 4,
    },
    Case {
        image: [0x3A000, 0x3B002, 0, 0x2E000],
        stop: Refusal::NextOutside { pc: 3 },
        ticks: 1,
    },
];

#[test]
fn every_fault_and_their_order(rt: HostRuntime) -> Result<(), Fail> {
    for case in CASES {
        assert_eq!(rt; stop_of(&case.image, 2)?, (Some(case.stop), case.ticks));
    }
    Ok(())
}

#[test]
fn no_room_for_any_export(rt: HostRuntime) -> Result<(), Fail> {
    assert_eq!(rt;
        stop_of(&[0x3A000, 0x2E000, 0x3BFFF], 0)?,
        (Some(Refusal::ExportsFull { pc: 1 }), 0)
    );
    Ok(())
}

// What stops a step of an image, after another image was run.
fn stop_after(first: &[u32], ticks: &[u16], second: &[u32]) -> Result<Option<Refusal>, Refusal> {
    let mut board = Board::new();
    let mut memory = OnChip::new();
    board.run(first, ticks, &mut memory, &mut [])?;
    Ok(board.run(second, &[0x100], &mut memory, &mut [])?.stop)
}

#[test]
fn faults_that_take_two_images(rt: HostRuntime) -> Result<(), Fail> {
    // A full stack and a return address outside: the address comes first.
    assert_eq!(rt;
        stop_after(&[0x3A000, 0x38000, 0x3B000], &[0; 16], &[0x3A000, 0x38000])?,
        Some(Refusal::NextOutside { pc: 1 })
    );
    // A popped address that only the other image has.
    assert_eq!(rt;
        stop_after(
            &[0x3A000, 0x3B003, 0, 0, 0x38FFD, 0x3B000],
            &[0; 2],
            &[0x3A000, 0x39000],
        )?,
        Some(Refusal::NextOutside { pc: 1 })
    );
    // An interrupt that finds the stack full.
    assert_eq!(rt;
        stop_after(
            &[0x3A000, 0x2C005, 0x38000, 0x3B000],
            &[0; 17],
            &[0x3A000, 0x2C005, 0x38000, 0x3B000],
        )?,
        Some(Refusal::StackFull { pc: 2 })
    );
    // A word that is not below 2^18.
    assert_eq!(rt;
        stop_after(&[0x3A000, 0x40000], &[], &[0x3A000, 0x40000])?,
        Some(Refusal::UndefinedWord { pc: 1 })
    );
    Ok(())
}

// A board that another image has led further than this one has words; an interrupt that is due changes nothing.
#[test]
fn pc_outside_the_image(rt: HostRuntime) -> Result<(), Fail> {
    let mut board = Board::new();
    let mut memory = OnChip::new();
    board.run(
        &[0x3A000, 0x2C005, 0x10000, 0x10000],
        &[0; 2],
        &mut memory,
        &mut [],
    )?;
    assert_eq!(rt; board.view().pc, 3);
    let stopped = board.step(&[0x3A000, 0x10000], 0x100, &mut memory);
    assert_eq!(rt; stopped.is_err(), true);
    assert_eq!(rt;
        board
            .run(&[0x3A000, 0x10000], &[0x100], &mut memory, &mut [])?
            .stop,
        Some(Refusal::PcOutside { pc: 3 })
    );
    Ok(())
}

// What keeps a run from starting, or nothing.
fn hindrance_of(image: &[u32], ticks: &[u16]) -> Option<Refusal> {
    let mut board = Board::new();
    let mut memory = OnChip::new();
    board.run(image, ticks, &mut memory, &mut []).err()
}

#[test]
fn what_keeps_a_run_from_starting(rt: HostRuntime) -> Result<(), Fail> {
    let words = vec![in rt.alloc(); 0x10000u32; 4097]?;
    assert!(rt; words.len() == 4097);
    assert_eq!(rt; hindrance_of(&words[0..1], &[]), Some(Refusal::ImageLength));
    assert_eq!(rt; hindrance_of(&words[0..2], &[]), None);
    assert_eq!(rt; hindrance_of(&words[0..4096], &[511]), None);
    assert_eq!(rt; hindrance_of(&words, &[512]), Some(Refusal::ImageLength));
    assert_eq!(rt;
        hindrance_of(&words[0..2], &[0, 511, 512, 600]),
        Some(Refusal::TickTooLarge { place: 2 })
    );
    let ticks = vec![in rt.alloc(); 512u16; 65_537]?;
    assert!(rt; ticks.len() == 65_537);
    assert_eq!(rt;
        hindrance_of(&words[0..2], &ticks),
        Some(Refusal::TooManyTicks)
    );
    assert_eq!(rt;
        hindrance_of(&words[0..2], &ticks[0..65_536]),
        Some(Refusal::TickTooLarge { place: 0 })
    );
    Ok(())
}
