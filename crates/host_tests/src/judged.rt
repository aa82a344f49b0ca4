// Class and verdicts of single errors.
use crate::reading;
use drive_host::drive::DriveHost;
use host::judge::pair;
use layers::marked::Marked;
use layers::wrapped::Wrapped;
use std::test::Fail;

// Each drive error with the rank of its class and both verdicts.
const DRIVE: [(u16, Option<u8>, bool, bool); 12] = [
    (0, None, false, false),
    (1, Some(9), false, false),
    (2, Some(7), false, false),
    (3, Some(5), false, false),
    (4, Some(3), false, true),
    (5, None, true, true),
    (6, None, true, true),
    (7, None, false, true),
    (12, None, false, true),
    (13, None, false, false),
    (34, Some(7), false, false),
    (38, None, true, true),
];

#[test]
fn drive_errors(rt: HostRuntime) -> Result<(), Fail> {
    for (error, rank, strict, lenient) in DRIVE {
        assert_eq!(rt; reading(&DriveHost, error)?, (rank, strict, lenient));
    }
    Ok(())
}

#[test]
fn cancelled_stops_retry(rt: HostRuntime) -> Result<(), Fail> {
    let mut host = Marked::new(DriveHost);
    let marker = host.mark(6, 0)?;
    assert_eq!(rt; reading(&host, marker)?, (Some(0), false, false));
    Ok(())
}

#[test]
fn challenge_takes_the_place_of_a_denied_permission(rt: HostRuntime) -> Result<(), Fail> {
    let mut marked = Marked::new(DriveHost);
    let marker = marked.mark(0, 6)?;
    let mut host = Wrapped::new(marked);
    let denied = host.wrap(marker, 2)?;
    let (rank, _, _) = reading(&host, denied)?;
    assert_eq!(rt; rank, Some(6));
    assert!(rt; pair(&host, denied)?.class.is_none());
    assert!(rt; pair(&host, marker)?.class.is_some());
    assert!(rt; pair(&host, 0)?.class.is_none());
    Ok(())
}

#[test]
fn denied_permission_alone(rt: HostRuntime) -> Result<(), Fail> {
    let mut host = Wrapped::new(DriveHost);
    let denied = host.wrap(0, 2)?;
    assert_eq!(rt; reading(&host, denied)?, (Some(7), false, false));
    Ok(())
}
