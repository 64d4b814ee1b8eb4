//! Folder tables: the events that they tell, and how they end.
use labels::code::FolderCode;
use sources::event::Event;
use sources::fault::TableFault;
use sources::record::{FolderTable, Record};
use sources::source::Source;
use std::process::Abort;

// Records of these depths, up to eight, each with its number for a label.
fn records(depths: &[u32]) -> [Record<FolderCode>; 8] {
    let mut records = [Record {
        depth: 0,
        label: FolderCode(0),
    }; 8];
    let mut code = 0;
    for (record, depth) in records.iter_mut().zip(depths) {
        record.depth = *depth;
        record.label = FolderCode(code);
        code = code.wrapping_add(1);
    }
    records
}

// Records of these depths tell these events, where a digit is an opening with that code and `)` a closing, and then end so, however often
// they are asked.
fn tells(rt: &impl Abort, depths: &[u32], events: &str, ending: Result<(), TableFault>) {
    let records = records(depths);
    let mut source = FolderTable::new(&records[..depths.len().min(8)]);
    for event in events.as_bytes() {
        let expected = match *event {
            b')' => Event::Close,
            digit => Event::Open(FolderCode(u32::from(digit).wrapping_sub(48))),
        };
        assert_eq!(rt; source.next(), Ok(Some(expected)), "in {depths:?}");
    }
    assert_eq!(rt; source.next(), ending.map(|()| None), "behind {depths:?}");
    assert_eq!(rt; source.next(), ending.map(|()| None), "behind {depths:?}");
}

#[test]
fn trees(rt: HostRuntime) {
    tells(&rt, &[], "", Ok(()));
    tells(&rt, &[0], "0)", Ok(()));
    tells(&rt, &[0, 0], "0)1)", Ok(()));
    tells(&rt, &[0, 1, 2, 3], "0123))))", Ok(()));
    tells(&rt, &[0, 1, 2, 1, 0, 1], "012))3))45))", Ok(()));
    tells(&rt, &[0, 1, 2, 2, 0], "012)3)))4)", Ok(()));
}

#[test]
fn wrong_depths(rt: HostRuntime) {
    tells(&rt, &[0, 1, 3], "01", Err(TableFault::WrongDepth(2)));
    tells(&rt, &[1, 0], "", Err(TableFault::WrongDepth(0)));
    tells(&rt, &[0, 2, 0], "0", Err(TableFault::WrongDepth(1)));
    tells(
        &rt,
        &[0, 1, 0, 2, 0],
        "01))2",
        Err(TableFault::WrongDepth(3)),
    );
    tells(&rt, &[0, u32::MAX], "0", Err(TableFault::WrongDepth(1)));
    let fault = TableFault::WrongDepth(2);
    assert_eq!(&rt; (fault.number(), fault.record()), (40, 2));
}
