// The load bytes of an image that has passed.
use crate::asking::{EXAMPLE, stale};
use inspection::inspecting::inspect;
use ledger::owned::OwnedPages;
use refusals::Refusal;
use std::test::Fail;

// Three for each word, and three behind that stay.
const LOADED: [u8; 24] = [
    0x03, 0xA0, 0x00, 0x01, 0x2E, 0x03, 0x02, 0xC0, 0x05, 0x03, 0x80, 0x02, 0x03, 0xB0, 0x00, 0x02,
    0xE1, 0x2C, 0x03, 0x90, 0x00, 0xEE, 0xEE, 0xEE,
];

const PAGES: OwnedPages = OwnedPages { first: 3, last: 3 };

#[test]
fn load_bytes(rt: HostRuntime) -> Result<(), Fail> {
    let mut rows = [stale(); 7];
    let mut bytes = [0xEE; 24];
    let passed = inspect(&EXAMPLE, PAGES, &mut rows)?;
    assert_eq!(rt;
        passed.write_load_bytes(&mut bytes[0..20]),
        Err(Refusal::LoadBytesTooShort)
    );
    assert_eq!(rt; bytes, [0xEE; 24]);
    assert_eq!(rt; passed.write_load_bytes(&mut bytes[0..21]), Ok(()));
    assert_eq!(rt; bytes, LOADED);
    bytes = [0xEE; 24];
    assert_eq!(rt; passed.write_load_bytes(&mut bytes), Ok(()));
    assert_eq!(rt; bytes, LOADED);
    Ok(())
}

// A passed image holds its words, its pages and its depth.
#[test]
fn what_a_passed_image_holds(rt: HostRuntime) -> Result<(), Fail> {
    let mut rows = [stale(); 7];
    let passed = inspect(&EXAMPLE, PAGES, &mut rows)?;
    assert_eq!(rt; passed.owned(), PAGES);
    assert_eq!(rt; passed.depth(), 2);
    assert!(rt; passed.words() == &EXAMPLE[..]);
    Ok(())
}
