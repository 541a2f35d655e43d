// Jobs: a whole one, one cut at every place, both limits, and the order of refusals.
use huigasto::{Job, JobError, OwnedPages, Refusal, listing};
use std::alloc::Global;
use std::process::Abort;
use std::test::Fail;

// Pages 3 to 3, seven words and six ticks.
const JOB: [u8; 51] = [
    b'P', 0, 3, 0, 3, b'W', 3, 0xA0, 0, b'W', 1, 0x2E, 3, b'W', 2, 0xC0, 5, b'W', 3, 0x80, 2, b'W',
    3, 0xB0, 0, b'W', 2, 0xE1, 0x2C, b'W', 3, 0x90, 0, b'T', 0, 0, b'T', 0, 0, b'T', 1, 0, b'T', 0,
    0, b'T', 0, 0, b'T', 0, 0,
];

// Where the records of that job begin, and where it ends.
const PLACES: [usize; 15] = [0, 5, 9, 13, 17, 21, 25, 29, 33, 36, 39, 42, 45, 48, 51];

// The refusal of a job, if it is refused.
fn refusal_of(heap: Global, bytes: &[u8]) -> Result<Option<Refusal>, JobError> {
    match Job::read(heap, bytes) {
        Ok(_) => Ok(None),
        Err(JobError::Refused(refusal)) => Ok(Some(refusal)),
        Err(error) => Err(error),
    }
}

#[test]
fn a_whole_job(rt: HostRuntime) -> Result<(), Fail> {
    let job = Job::read(rt.alloc(), &JOB)?;
    assert_eq!(rt; job.pages, OwnedPages { first: 3, last: 3 });
    assert_eq!(rt;
        job.words.as_slice(),
        [
            0x3A000, 0x12E03, 0x2C005, 0x38002, 0x3B000, 0x2E12C, 0x39000,
        ]
        .as_slice()
    );
    assert_eq!(rt; job.ticks.as_slice(), [0, 0, 0x100, 0, 0, 0].as_slice());
    Ok(())
}

#[test]
fn cut_at_every_place(rt: HostRuntime) -> Result<(), Fail> {
    let mut begun = 0;
    for end in 0..52 {
        let whole = PLACES.contains(&end);
        if whole {
            begun = end;
        }
        let expected = if whole {
            None
        } else {
            Some(Refusal::RecordCutOff { place: begun })
        };
        assert_eq!(rt; refusal_of(rt.alloc(), &JOB[0..end])?, expected);
    }
    Ok(())
}

#[test]
fn an_empty_job(rt: HostRuntime) -> Result<(), Fail> {
    let job = Job::read(rt.alloc(), &[])?;
    assert_eq!(rt; job.pages, OwnedPages { first: 0, last: 0 });
    assert_eq!(rt; job.words.len(), 0);
    assert_eq!(rt; job.ticks.len(), 0);
    Ok(())
}

#[test]
fn a_later_record_of_pages_counts(rt: HostRuntime) -> Result<(), Fail> {
    let job = Job::read(rt.alloc(), b"P\x01\x02\x03\x04P\xff\xfe\x00\x10")?;
    assert_eq!(rt;
        job.pages,
        OwnedPages {
            first: 0xFFFE,
            last: 0x10,
        }
    );
    Ok(())
}

// Of a kind of record 4,096 are read, and one more is refused at its place.
fn reads_at_most_4096(
    rt: &impl Abort,
    heap: Global,
    record: &[u8],
    place: usize,
) -> Result<(), Fail> {
    let full = record.repeat(heap, 4096)?;
    assert_eq!(rt; refusal_of(heap, full.as_slice())?, None);
    let over = record.repeat(heap, 4097)?;
    assert_eq!(rt;
        refusal_of(heap, over.as_slice())?,
        Some(Refusal::TooManyRecords { place })
    );
    Ok(())
}

#[test]
fn most_words(rt: HostRuntime) -> Result<(), Fail> {
    reads_at_most_4096(&rt, rt.alloc(), b"W\x01\x00\x00", 16_384)
}

#[test]
fn most_ticks(rt: HostRuntime) -> Result<(), Fail> {
    reads_at_most_4096(&rt, rt.alloc(), b"T\x01\x00", 12_288)
}

#[test]
fn longest_job(rt: HostRuntime) -> Result<(), Fail> {
    let mut bytes = b"P\x00\x01\x00\x02".repeat(rt.alloc(), 13_107)?;
    assert_eq!(rt; bytes.len(), 65_535);
    assert_eq!(rt; refusal_of(rt.alloc(), bytes.as_slice())?, None);
    bytes.push(b'P')?;
    assert_eq!(rt;
        refusal_of(rt.alloc(), bytes.as_slice())?,
        Some(Refusal::JobTooLong)
    );
    Ok(())
}

#[test]
fn the_first_record_decides(rt: HostRuntime) -> Result<(), Fail> {
    assert_eq!(rt;
        refusal_of(rt.alloc(), b"T\x00\x00w\x00\x00\x00T")?,
        Some(Refusal::UnknownKind { place: 3 })
    );
    assert_eq!(rt;
        refusal_of(rt.alloc(), b"P\x00\x00\x00")?,
        Some(Refusal::RecordCutOff { place: 0 })
    );
    let mut over = b"T\x01\x00".repeat(rt.alloc(), 4096)?;
    over.extend_from_slice(b"T\x00")?;
    assert_eq!(rt;
        refusal_of(rt.alloc(), over.as_slice())?,
        Some(Refusal::RecordCutOff { place: 12_288 })
    );
    Ok(())
}

#[test]
fn listings(rt: HostRuntime) -> Result<(), Fail> {
    let text = listing(
        rt.alloc(),
        b"W\x03\xbf\xffW\x03\xc0\x00W\xff\xff\xffT\x00\x00",
    )?;
    assert_eq!(rt;
        text.as_str(),
        "0000 3BFFF b -1\n0001 3C000 refused 17\n0002 FFFFFF refused 17\npages 0 to 0, ticks 1\n"
    );
    let refused = listing(rt.alloc(), b"T\x00\x00Q")?;
    assert_eq!(rt; refused.as_str(), "JOB 24 at 3\n");
    Ok(())
}
