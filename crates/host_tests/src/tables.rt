// The table host: which records are live, and what they tell.
use host::host::Host;
use layers::marked::Marked;
use std::alloc::{AllocError, Global};
use std::test::Fail;
use table_host::record::Record;
use table_host::table::TableHost;
use vocabulary::fault::{HostFault, LayerFault};

// A plain error without source or text.
const PLAIN: Record = Record {
    kind: 0,
    detail: 0,
    source: None,
    start: 0,
    len: 0,
};

// A plain error without source, whose text is the first byte.
const SHORT: Record = Record { len: 1, ..PLAIN };

// A table over 300 bytes, all of them `a`.
fn table(heap: Global, records: Vec<Record>) -> Result<TableHost, AllocError> {
    let bytes = vec![in heap; b'a'; 300]?;
    TableHost::new(heap, records, bytes).map_err(|_| AllocError)
}

// Records with whether each is live.
const RECORDS: [(Record, bool); 20] = [
    (PLAIN, true),
    (
        Record {
            start: 45,
            len: 255,
            ..PLAIN
        },
        true,
    ),
    (Record { len: 256, ..PLAIN }, false),
    (
        Record {
            start: 46,
            len: 255,
            ..PLAIN
        },
        false,
    ),
    (
        Record {
            start: 300,
            ..PLAIN
        },
        true,
    ),
    (
        Record {
            start: 301,
            ..PLAIN
        },
        false,
    ),
    (
        Record {
            source: Some(6),
            ..SHORT
        },
        false,
    ),
    (
        Record {
            source: Some(8),
            ..SHORT
        },
        false,
    ),
    (
        Record {
            source: Some(0),
            ..SHORT
        },
        true,
    ),
    (
        Record {
            source: Some(2),
            ..SHORT
        },
        false,
    ),
    (
        Record {
            source: Some(9),
            ..SHORT
        },
        false,
    ),
    (
        Record {
            kind: 1,
            detail: 10,
            ..SHORT
        },
        true,
    ),
    (
        Record {
            kind: 1,
            detail: 11,
            ..SHORT
        },
        false,
    ),
    (
        Record {
            kind: 1,
            detail: 254,
            ..SHORT
        },
        false,
    ),
    (
        Record {
            kind: 1,
            detail: 255,
            ..SHORT
        },
        true,
    ),
    (
        Record {
            kind: 1,
            detail: 255,
            source: Some(0),
            ..SHORT
        },
        false,
    ),
    (
        Record {
            kind: 2,
            detail: 255,
            ..SHORT
        },
        false,
    ),
    (
        Record {
            kind: 3,
            detail: 77,
            ..SHORT
        },
        true,
    ),
    (
        Record {
            kind: 4,
            detail: 16,
            ..SHORT
        },
        false,
    ),
    (Record { kind: 5, ..SHORT }, false),
];

#[test]
fn which_records_are_live(rt: HostRuntime) -> Result<(), Fail> {
    let heap = rt.alloc();
    let records = RECORDS.iter().map(|(record, _)| *record).collect(heap)?;
    let host = table(heap, records)?;
    for (error, (_, live)) in (0..=u16::MAX).zip(RECORDS) {
        assert_eq!(rt; host.kind(error).is_ok(), live);
    }
    assert_eq!(rt; host.span(), 20);
    assert_eq!(rt; host.source(20), Err(HostFault::NotLive(20)));
    Ok(())
}

#[test]
fn table_texts(rt: HostRuntime) -> Result<(), Fail> {
    let heap = rt.alloc();
    let full = Record {
        start: 45,
        len: 255,
        ..PLAIN
    };
    let host = table(heap, vec![in heap; full, PLAIN]?)?;
    let mut part = [b'.'; 256];
    assert_eq!(rt; host.text(0, &mut part), Ok(255));
    assert!(rt; part[254] == b'a' && part[255] == b'.');
    assert_eq!(rt;
        host.text(0, &mut part[0..254]),
        Err(HostFault::TextTooLong(255))
    );
    assert_eq!(rt; host.text(1, &mut part[0..0]), Ok(0));
    assert_eq!(rt; host.text_len(0), Ok(255));
    Ok(())
}

#[test]
fn more_records_than_numbers(rt: HostRuntime) -> Result<(), Fail> {
    let heap = rt.alloc();
    let records = vec![in heap; SHORT; 65540]?;
    let host = table(heap, records)?;
    assert_eq!(rt; host.span(), 65536);
    assert!(rt; host.kind(65535).is_ok());
    let mut full = Marked::new(host);
    assert_eq!(rt; full.mark(65535, 0), Err(LayerFault::Full(0)));
    Ok(())
}

#[test]
fn the_last_number(rt: HostRuntime) -> Result<(), Fail> {
    let heap = rt.alloc();
    let records = vec![in heap; SHORT; 65535]?;
    let mut host = Marked::new(table(heap, records)?);
    assert_eq!(rt; host.mark(0, 0), Ok(65535));
    assert_eq!(rt; host.mark(65535, 0), Err(LayerFault::Full(1)));
    Ok(())
}
