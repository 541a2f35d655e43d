// Calls nested as deep as the stack allows, and one deeper.
use crate::asking::{Verdict, stale, verdict};
use inspection::inspecting::inspect;
use ledger::owned::OwnedPages;
use refusals::Refusal;

// A first word, and behind it so many calls, each of the routine two addresses on: calls at even addresses, returns at
// odd ones, b 0 where the outermost call resumes, and a bare iret at 0.
fn nested(first: u32, calls: usize) -> [u32; 40] {
    let mut image = [0x39000; 40];
    for word in image.iter_mut().skip(2).step_by(2).take(calls) {
        *word = 0x38002;
    }
    image[0] = 0x3A000;
    image[1] = first;
    image[3] = 0x3B000;
    image
}

// A nop or seti, the calls, and the verdict.
const NESTS: [(u32, usize, Verdict); 6] = [
    (0x10000, 1, Ok(1)),
    (0x10000, 16, Ok(16)),
    (0x10000, 17, Err(Refusal::StackTooDeep)),
    (0x2C005, 1, Ok(2)),
    (0x2C005, 15, Ok(16)),
    (0x2C005, 16, Err(Refusal::StackTooDeep)),
];

#[test]
fn nested_calls(rt: HostRuntime) {
    let owned = OwnedPages { first: 0, last: 0 };
    for (first, calls, expected) in NESTS {
        let mut rows = [stale(); 40];
        let answer = verdict(inspect(&nested(first, calls), owned, &mut rows));
        assert_eq!(rt; (calls, answer), (calls, expected));
    }
}
