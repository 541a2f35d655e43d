// The machine: the maker's trace, each kind of instruction at its edges, exports, and an interrupt.
use machine::board::Board;
use memories::on_chip::OnChip;
use std::test::Fail;

// The maker's trace, from address 1 on.
const TRACE: [u32; 18] = [
    0x3A000, 0x10000, 0x12055, 0x12105, 0x12203, 0x08110, 0x0A101, 0x10308, 0x10410, 0x12535,
    0x12643, 0x08628, 0x0A613, 0x10728, 0x10830, 0x12916, 0x12ADF, 0x3B000,
];

// The register that each word of it writes, with its new value.
const WRITTEN: [(usize, u8); 16] = [
    (0, 0x00),
    (0, 0x55),
    (1, 0x05),
    (2, 0x03),
    (1, 0x08),
    (1, 0x09),
    (3, 0x09),
    (4, 0x03),
    (5, 0x35),
    (6, 0x43),
    (6, 0x78),
    (6, 0x8B),
    (7, 0x35),
    (8, 0x8B),
    (9, 0x16),
    (10, 0xDF),
];

#[test]
fn trace_of_the_guide(rt: HostRuntime) -> Result<(), Fail> {
    let mut board = Board::new();
    let mut memory = OnChip::new();
    for (register, value) in WRITTEN {
        assert_eq!(rt; board.step(&TRACE, 0, &mut memory)?.cycles, 2);
        assert_eq!(rt; board.view().registers.get(register).copied(), Some(value));
    }
    assert_eq!(rt; board.view().pc, 17);
    Ok(())
}

// A word over R01 and R02, their values, whether the carry is set before; then R01, carry and zero after.
const EDGES: [(u32, u8, u8, bool, u8, bool, bool); 35] = [
    (0x08110, 200, 56, false, 0, true, true),
    (0x08110, 255, 0, true, 255, false, false),
    (0x0C110, 255, 0, true, 0, true, true),
    (0x0C110, 255, 255, true, 255, true, false),
    (0x0A1FF, 1, 0, false, 0, true, true),
    (0x0E1FF, 0, 0, true, 0, true, true),
    (0x00110, 0, 1, false, 255, true, false),
    (0x00110, 7, 7, true, 0, false, true),
    (0x04110, 0, 255, true, 0, true, true),
    (0x04110, 8, 7, true, 0, false, true),
    (0x06180, 128, 0, true, 255, true, false),
    (0x10110, 9, 0, true, 0, true, true),
    (0x12180, 9, 0, false, 128, false, false),
    (0x14110, 0xF0, 0x0F, true, 0, true, true),
    (0x18110, 0xF0, 0x0F, false, 0xFF, false, false),
    (0x1C110, 0x3C, 0x3C, true, 0, true, true),
    (0x1E10F, 0xFF, 0, false, 0xF0, false, false),
    (0x20110, 3, 4, false, 3, true, false),
    (0x22103, 3, 4, true, 3, false, true),
    (0x24110, 0xF0, 0x0F, true, 0xF0, true, true),
    (0x28110, 0, 1, true, 128, true, false),
    (0x28111, 0, 0x81, false, 3, false, false),
    (0x28112, 9, 1, false, 0, true, true),
    (0x28112, 9, 2, true, 129, false, false),
    (0x28113, 9, 0x80, false, 0, true, true),
    (0x28113, 9, 0x7F, true, 0xFF, false, false),
    (0x28113, 9, 0xFF, true, 0xFF, true, false),
    (0x2C000, 9, 2, true, 9, false, false),
    (0x02101, 0, 0, false, 255, true, false),
    (0x1610F, 0xF0, 0, true, 0, true, true),
    (0x1A10F, 0xF0, 0, false, 0xFF, false, false),
    (0x26101, 0xFE, 0, true, 0xFE, true, true),
    (0x2C001, 9, 2, false, 9, true, false),
    (0x2C003, 9, 2, false, 9, false, true),
    (0x2C005, 9, 2, false, 9, false, false),
];

#[test]
fn instructions_at_their_edges(rt: HostRuntime) -> Result<(), Fail> {
    for (word, first, second, carry, result, carry_after, zero_after) in EDGES {
        let flag = if carry { 0x2C001 } else { 0x2C000 };
        let load_first = u32::from(first).saturating_add(0x12100);
        let load_second = u32::from(second).saturating_add(0x12200);
        let image = [
            0x3A000,
            load_first,
            load_second,
            flag,
            0x2C002,
            word,
            0x3B000,
        ];
        let mut board = Board::new();
        let mut memory = OnChip::new();
        let report = board.run(&image, &[0; 5], &mut memory, &mut [])?;
        assert_eq!(rt; report.cycles, 10);
        assert_eq!(rt; board.view().registers.get(1).copied(), Some(result));
        assert_eq!(rt; board.view().carry, carry_after);
        assert_eq!(rt; board.view().zero, zero_after);
    }
    Ok(())
}

// Stores 0x2A into cell 5 of page 0, loads it into R14, and exports R14: by then from page 0x2A.
const PAGES: [u32; 7] = [
    0x3A000, 0x1212A, 0x2E12C, 0x12205, 0x2EE17, 0x2EEF8, 0x3B000,
];

#[test]
fn transfers_use_the_page_before_they_write(rt: HostRuntime) -> Result<(), Fail> {
    let mut board = Board::new();
    let mut memory = OnChip::new();
    let mut exports = [0; 1];
    let report = board.run(&PAGES, &[0; 5], &mut memory, &mut exports)?;
    assert_eq!(rt; report.cycles, 13);
    assert_eq!(rt; report.exports, 1);
    assert_eq!(rt; exports, [(0x2A * 256 + 31) * 256 + 0x2A]);
    assert_eq!(rt; report.stop, None);
    Ok(())
}

// A conditional word two ahead, the carry, the zero flag, whether it is taken, and the entries that it pushes.
const CONDITIONS: [(u32, u32, u32, bool, usize); 16] = [
    (0x30002, 0x2C000, 0x2C003, true, 0),
    (0x30002, 0x2C001, 0x2C002, false, 0),
    (0x31002, 0x2C000, 0x2C002, true, 0),
    (0x31002, 0x2C000, 0x2C003, false, 0),
    (0x32002, 0x2C001, 0x2C002, true, 0),
    (0x32002, 0x2C000, 0x2C003, false, 0),
    (0x33002, 0x2C000, 0x2C003, true, 0),
    (0x33002, 0x2C001, 0x2C002, false, 0),
    (0x34002, 0x2C000, 0x2C003, true, 1),
    (0x34002, 0x2C001, 0x2C002, false, 0),
    (0x35002, 0x2C000, 0x2C002, true, 1),
    (0x35002, 0x2C000, 0x2C003, false, 0),
    (0x36002, 0x2C001, 0x2C002, true, 1),
    (0x36002, 0x2C000, 0x2C003, false, 0),
    (0x37002, 0x2C000, 0x2C003, true, 1),
    (0x37002, 0x2C001, 0x2C002, false, 0),
];

#[test]
fn conditional_words(rt: HostRuntime) -> Result<(), Fail> {
    for (word, carry, zero, taken, depth) in CONDITIONS {
        let image = [0x3A000, carry, zero, word, 0x3B000, 0x3B000];
        let mut board = Board::new();
        let mut memory = OnChip::new();
        board.run(&image, &[0; 3], &mut memory, &mut [])?;
        assert_eq!(rt; board.view().pc, if taken { 5 } else { 4 });
        assert_eq!(rt; board.view().depth, depth);
    }
    Ok(())
}

// import R01,0; movi R02,5; sspi R01,R02; lsp R03,5; exporti R03,R02; importi R04,R02.
const PORTS: [u32; 8] = [
    0x3A000, 0x2E101, 0x12205, 0x2E116, 0x2E32D, 0x2E312, 0x2E413, 0x3B000,
];

#[test]
fn ports_and_cells(rt: HostRuntime) -> Result<(), Fail> {
    let mut board = Board::new();
    let mut memory = OnChip::new();
    let mut exports = [0; 1];
    let report = board.run(&PORTS, &[0xAB, 0, 0, 0, 0, 0x17], &mut memory, &mut exports)?;
    assert_eq!(rt; report.cycles, 17);
    assert_eq!(rt; exports, [5 * 256 + 0xAB]);
    assert_eq!(rt; board.view().registers.get(4).copied(), Some(0x17));
    Ok(())
}

// setc; call 2; b 0; then clrc; ret.
const CALLED: [u32; 6] = [0x3A000, 0x2C001, 0x38002, 0x3B000, 0x2C000, 0x39000];

// In the handler clrc and iret; in the main program seti; setc; b 0.
const HANDLED: [u32; 6] = [0x3B004, 0x2C005, 0x2C001, 0x3B000, 0x2C000, 0x3A000];

#[test]
fn ret_drops_the_flags_and_iret_takes_them_back(rt: HostRuntime) -> Result<(), Fail> {
    let mut board = Board::new();
    let mut memory = OnChip::new();
    board.run(&CALLED, &[0; 4], &mut memory, &mut [])?;
    assert_eq!(rt; board.view().pc, 3);
    assert_eq!(rt; board.view().carry, false);
    board.reset();
    board.run(&HANDLED, &[0, 0, 0x100, 0, 0, 0], &mut memory, &mut [])?;
    assert_eq!(rt; board.view().pc, 3);
    assert_eq!(rt; board.view().carry, true);
    Ok(())
}

// Enables interrupts, sets the carry and goes round; the handler only returns.
const INTERRUPTED: [u32; 4] = [0x3A000, 0x2C005, 0x2C001, 0x3B000];

#[test]
fn an_interrupt_comes_and_goes(rt: HostRuntime) -> Result<(), Fail> {
    let mut board = Board::new();
    let mut memory = OnChip::new();
    board.run(&INTERRUPTED, &[0x100, 0, 0x100], &mut memory, &mut [])?;
    assert_eq!(rt; board.view().pc, 0);
    assert_eq!(rt; board.view().depth, 1);
    board.step(&INTERRUPTED, 0x100, &mut memory)?;
    assert_eq!(rt; board.view().pc, 3);
    assert_eq!(rt; board.view().depth, 0);
    assert_eq!(rt; board.view().carry, true);
    Ok(())
}

#[test]
fn reset_begins_anew(rt: HostRuntime) -> Result<(), Fail> {
    let mut board = Board::new();
    let mut memory = OnChip::new();
    board.run(&PAGES, &[0; 4], &mut memory, &mut [])?;
    board.reset();
    assert_eq!(rt; board.view().registers, [0; 32]);
    assert_eq!(rt; board.view().pc, 1);
    Ok(())
}
