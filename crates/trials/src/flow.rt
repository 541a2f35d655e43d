// Smallest facts of small images, against tables worked out by hand.
use crate::reach::Reach;
use facts::engine::smallest;
use facts::interval::Interval;
use facts::marks::FrameMarks;
use facts::spans::PageSpans;

const NONE: FrameMarks = FrameMarks {
    outer: false,
    routine: false,
};

const OUTER: FrameMarks = FrameMarks {
    outer: true,
    routine: false,
};

const ROUTINE: FrameMarks = FrameMarks {
    outer: false,
    routine: true,
};

const BOTH: FrameMarks = FrameMarks {
    outer: true,
    routine: true,
};

// The marks of up to eight words from address 1 on; the entries behind the image stay at both.
fn marks_of(image: &[u32]) -> [FrameMarks; 8] {
    let mut table = [BOTH; 8];
    if image.len() <= 8 {
        smallest(image, &mut table, 1, OUTER);
    }
    table
}

fn spans(low14: u8, high14: u8, low15: u8, high15: u8) -> Option<PageSpans> {
    let r14 = Interval::point(low14).hull(Interval::point(high14));
    let r15 = Interval::point(low15).hull(Interval::point(high15));
    Some(PageSpans { r14, r15 })
}

fn spans_of(image: &[u32]) -> [Option<PageSpans>; 8] {
    let mut table = [None; 8];
    if image.len() <= 8 {
        smallest(image, &mut table, 1, spans(0, 0, 0, 0));
    }
    table
}

// movi R14,3; b -1.
const LOOP_BACK: [u32; 3] = [0x3A000, 0x12E03, 0x3BFFF];

#[test]
fn a_loop_backwards(rt: HostRuntime) {
    assert_eq!(rt;
        marks_of(&LOOP_BACK),
        [NONE, OUTER, OUTER, BOTH, BOTH, BOTH, BOTH, BOTH]
    );
    let table = spans_of(&LOOP_BACK);
    assert_eq!(rt; table[0], None);
    assert_eq!(rt; table[1], spans(0, 3, 0, 0));
    assert_eq!(rt; table[2], spans(3, 3, 0, 0));
}

// callz 2; b 0; then the routine: movi R14,5; andi R15,7; ret.
const CONDITIONAL: [u32; 6] = [0x3A000, 0x34002, 0x3B000, 0x12E05, 0x16F07, 0x39000];

#[test]
fn a_conditional_call(rt: HostRuntime) {
    assert_eq!(rt;
        marks_of(&CONDITIONAL),
        [NONE, OUTER, OUTER, ROUTINE, ROUTINE, ROUTINE, BOTH, BOTH]
    );
    let table = spans_of(&CONDITIONAL);
    assert_eq!(rt; table[1], spans(0, 0, 0, 0));
    assert_eq!(rt; table[3], spans(0, 0, 0, 0));
    assert_eq!(rt; table[4], spans(5, 5, 0, 0));
    assert_eq!(rt; table[5], spans(5, 5, 0, 0));
    assert_eq!(rt; table[2], spans(0, 5, 0, 0));
}

// call 2; b 0; then callz 2; ret; then call -2; ret.
const MUTUAL: [u32; 7] = [
    0x3A000, 0x38002, 0x3B000, 0x34002, 0x39000, 0x38FFE, 0x39000,
];

#[test]
fn mutual_recursion(rt: HostRuntime) {
    assert_eq!(rt;
        marks_of(&MUTUAL),
        [NONE, OUTER, OUTER, ROUTINE, ROUTINE, ROUTINE, ROUTINE, BOTH]
    );
}

#[test]
fn a_call_as_the_last_word(rt: HostRuntime) {
    assert_eq!(rt;
        marks_of(&[0x3A000, 0x38FFF]),
        [ROUTINE, OUTER, BOTH, BOTH, BOTH, BOTH, BOTH, BOTH]
    );
}

#[test]
fn no_word_and_one(rt: HostRuntime) {
    assert_eq!(rt; marks_of(&[]), [BOTH; 8]);
    assert_eq!(rt;
        marks_of(&[0x10000]),
        [NONE, BOTH, BOTH, BOTH, BOTH, BOTH, BOTH, BOTH]
    );
}

#[test]
fn a_third_kind(rt: HostRuntime) {
    let mut table = [Reach { reached: true }; 7];
    smallest(&MUTUAL, &mut table, 3, Reach { reached: true });
    assert_eq!(rt;
        table.map(|fact| fact.reached),
        [false, false, false, true, true, true, true]
    );
}
