// Numbers at each edge of the drive host and of the layers.
use drive_host::drive::DriveHost;
use host::host::{GrowingHost, Host};
use layers::addition::LayerAddition;
use layers::marked::Marked;
use layers::wrapped::Wrapped;
use std::test::Fail;
use vocabulary::fault::{HostFault, LayerFault};

// A part of twelve dots once it was filled with an error's text, and the answer; the dots behind the text are compared too.
fn text_of<H: Host>(host: &H, error: u16) -> Result<([u8; 12], usize), HostFault> {
    let mut part = *b"............";
    let len = host.text(error, &mut part)?;
    Ok((part, len))
}

#[test]
fn drive_edges(rt: HostRuntime) -> Result<(), Fail> {
    assert_eq!(rt; DriveHost.span(), 48);
    assert_eq!(rt; DriveHost.source(47)?, Some(31));
    assert_eq!(rt; DriveHost.source(16)?, Some(0));
    assert_eq!(rt; DriveHost.source(15)?, None);
    assert_eq!(rt; DriveHost.source(48), Err(HostFault::NotLive(48)));
    assert_eq!(rt; DriveHost.text_len(65535), Err(HostFault::NotLive(65535)));
    assert_eq!(rt; text_of(&DriveHost, 9)?, (*b"gauge 9.....", 7));
    assert_eq!(rt; text_of(&DriveHost, 26)?, (*b"drive 10....", 8));
    assert_eq!(rt; text_of(&DriveHost, 47)?, (*b"gate 15.....", 7));
    Ok(())
}

#[test]
fn short_parts(rt: HostRuntime) {
    let mut part = *b"......";
    assert_eq!(rt;
        DriveHost.text(9, &mut part),
        Err(HostFault::TextTooLong(7))
    );
    assert_eq!(rt; part, *b"......");
    assert_eq!(rt; DriveHost.text(41, &mut part), Ok(6));
    assert_eq!(rt; part, *b"gate 9");
    assert_eq!(rt; DriveHost.text(48, &mut part), Err(HostFault::NotLive(48)));
    assert_eq!(rt; part, *b"gate 9");
}

// The drive gains no errors, and a layer over it hands its refusal up while it has room of its own.
#[test]
fn additions_to_the_drive(rt: HostRuntime) {
    let mut drive = DriveHost;
    assert_eq!(rt; drive.add(()), Err(LayerFault::Full(0)));
    let mut marked = Marked::new(DriveHost);
    assert_eq!(rt;
        marked.add(LayerAddition::Below(())),
        Err(LayerFault::Full(0))
    );
    assert_eq!(rt;
        marked.add(LayerAddition::Wrap { error: 6, value: 0 }),
        Ok(48)
    );
    assert_eq!(rt;
        marked.add(LayerAddition::Below(())),
        Err(LayerFault::Full(0))
    );
    assert_eq!(rt; marked.source(48), Ok(Some(6)));
}

#[test]
fn ranks_and_kinds(rt: HostRuntime) -> Result<(), Fail> {
    let mut host = Wrapped::new(Marked::new(DriveHost));
    assert_eq!(rt;
        host.wrap(48, 99),
        Err(LayerFault::Host(HostFault::NotLive(48)))
    );
    assert_eq!(rt; host.wrap(0, 16), Err(LayerFault::NotNamed(16)));
    assert_eq!(rt; host.wrap(0, 255), Err(LayerFault::NotNamed(255)));
    assert_eq!(rt; host.wrap(0, 15), Ok(112));
    assert_eq!(rt;
        host.wrap(113, 0),
        Err(LayerFault::Host(HostFault::NotLive(113)))
    );
    assert_eq!(rt; host.wrap(112, 0), Ok(113));
    assert_eq!(rt; host.source(113)?, Some(112));
    assert_eq!(rt; text_of(&host, 113)?, (*b"gauge 0.....", 7));
    let mut marked = Marked::new(host);
    assert_eq!(rt; marked.mark(113, 11), Err(LayerFault::NotNamed(11)));
    assert_eq!(rt; marked.mark(113, 254), Err(LayerFault::NotNamed(254)));
    assert_eq!(rt; marked.mark(113, 255), Err(LayerFault::NotNamed(255)));
    assert_eq!(rt; marked.mark(113, 10), Ok(176));
    assert_eq!(rt; text_of(&marked, 176)?, (*b"............", 0));
    assert_eq!(rt; marked.span(), 240);
    Ok(())
}

#[test]
fn sixty_four_entries(rt: HostRuntime) -> Result<(), Fail> {
    let mut host = Marked::new(DriveHost);
    for i in 0..64u16 {
        assert_eq!(rt; host.mark(i, 9), Ok(48 + i));
    }
    assert_eq!(rt; host.mark(0, 9), Err(LayerFault::Full(64)));
    assert_eq!(rt;
        host.mark(112, 9),
        Err(LayerFault::Host(HostFault::NotLive(112)))
    );
    assert_eq!(rt; host.mark(0, 11), Err(LayerFault::NotNamed(11)));
    assert_eq!(rt; host.source(111)?, Some(63));
    assert_eq!(rt; host.span(), 112);
    Ok(())
}
