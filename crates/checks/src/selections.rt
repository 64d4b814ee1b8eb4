//! Selections: what they report, and what ends them before their source is done.
use labels::code::FolderCode;
use labels::name::Name;
use rules::rule::{NODE_LIMIT, Rule};
use selection::both::select_both;
use selection::refusal::{Cause, SelectFault};
use selection::select::select;
use sources::drain::drained;
use sources::fault::TableFault;
use sources::record::{FolderTable, Record};
use sources::source::Source;
use std::process::Abort;
use std::test::Fail;
use xml::fault::XmlFault;
use xml::reader::Xml;

// The label of records, where it does not matter.
const LABEL: FolderCode = FolderCode(7);

// The node 0 with a node 1 and a node 2 in it, and in node 2 the node 3.
const FOUR: &str = "<a><b/><c><d/></c></a>";

// Selects from the listing with the rule of the text.
fn selected(
    rt: &impl Abort,
    text: &str,
    listing: &str,
    numbers: &mut [u32],
) -> Result<usize, SelectFault<XmlFault>> {
    let mut rule = Rule::new();
    let mut names = [Name::empty(); NODE_LIMIT];
    assert_eq!(rt; rule.read_text(text.as_bytes(), &mut names), Ok(()));
    select(&rule, &names, &mut Xml::new(listing.as_bytes()), numbers)
}

// What a refused selection tells: the number of the refusal, the accepted openings, and how many numbers are reported.
fn refused<F: Copy>(answer: Result<usize, SelectFault<F>>) -> Option<(u32, u32, usize)> {
    let fault = answer.err()?;
    match fault.cause {
        Cause::Refused(refusal) => Some((refusal.number(), fault.openings, fault.reported)),
        Cause::Fault(_) => None,
    }
}

#[test]
fn numbers_stand_in_front(rt: HostRuntime) {
    for (text, listing, count, list) in [
        ("//*", FOUR, 4, [1, 3, 2, 0, 7, 7]),
        ("//a[a]", "<a><a><a/></a></a>", 2, [1, 0, 7, 7, 7, 7]),
        ("//b", "<a><b/><c><b/></c></a>", 2, [1, 3, 7, 7, 7, 7]),
        ("//*[.//d]", FOUR, 2, [2, 0, 7, 7, 7, 7]),
        ("//b[d]", FOUR, 0, [7, 7, 7, 7, 7, 7]),
    ] {
        let mut numbers = [7; 6];
        let answer = selected(&rt, text, listing, &mut numbers);
        assert_eq!(&rt; (answer, numbers), (Ok(count), list), "{text} on {listing}");
    }
}

// The rule has two rule nodes: any, and under it by a child edge one with the code 5.
#[test]
fn folder_codes(rt: HostRuntime) {
    let mut rule = Rule::new();
    assert_eq!(rt; rule.set_records(&[0, 0, 1, 0, 0, 0]), Ok(()));
    let labels = [LABEL, FolderCode(5)];
    let records = [(0, 1), (1, 5), (2, 5), (1, 4), (0, 5), (1, 4)].map(|(depth, code)| Record {
        depth,
        label: FolderCode(code),
    });
    let mut numbers = [7; 4];
    let answer = select(
        &rule,
        &labels,
        &mut FolderTable::new(&records),
        &mut numbers,
    );
    assert_eq!(rt; answer, Ok(2));
    assert_eq!(rt; numbers, [1, 0, 7, 7]);
}

// With room for fewer numbers than there are to report, the closing behind them is refused.
#[test]
fn short_lists(rt: HostRuntime) {
    for (room, openings, list) in [
        (0usize, 2, [7, 7, 7, 7]),
        (1, 4, [1, 7, 7, 7]),
        (2, 4, [1, 3, 7, 7]),
        (3, 4, [1, 3, 2, 7]),
    ] {
        let mut numbers = [7; 4];
        let answer = selected(&rt, "//*", FOUR, &mut numbers[..room.min(4)]);
        assert_eq!(&rt;
            refused(answer),
            Some((24, openings, room)),
            "room for {room}"
        );
        assert_eq!(&rt; numbers, list, "room for {room}");
    }
}

// There is room for just the numbers to report, or for none where none is to report.
#[test]
fn lists_that_just_suffice(rt: HostRuntime) {
    let mut numbers = [7; 4];
    assert_eq!(&rt; selected(&rt, "//*", FOUR, &mut numbers), Ok(4));
    assert_eq!(&rt; numbers, [1, 3, 2, 0]);
    let mut number = [7; 1];
    assert_eq!(&rt; selected(&rt, "//b", FOUR, &mut number), Ok(1));
    assert_eq!(&rt; number, [1]);
    assert_eq!(&rt; selected(&rt, "//e", FOUR, &mut []), Ok(0));
    let records: [Record<FolderCode>; 0] = [];
    let answer = select(&Rule::new(), &[], &mut FolderTable::new(&records), &mut []);
    assert_eq!(&rt; answer, Ok(0));
}

// What a listing's fault tells: its number and place, the accepted openings, and how many numbers are reported.
fn faulted(answer: Result<usize, SelectFault<XmlFault>>) -> Option<(u32, usize, u32, usize)> {
    let SelectFault {
        cause,
        openings,
        reported,
    } = answer.err()?;
    match cause {
        Cause::Fault(fault) => Some((fault.number(), fault.place(), openings, reported)),
        Cause::Refused(_) => None,
    }
}

#[test]
fn faults_of_listings(rt: HostRuntime) {
    for (listing, told, list) in [
        ("", (31, 0, 0, 0), [7, 7, 7]),
        ("<a><b/></c>", (33, 9, 2, 1), [1, 7, 7]),
        ("<a><b><c/></b>", (31, 14, 3, 2), [2, 1, 7]),
        ("<a><b/></a><c/>", (30, 11, 2, 2), [1, 0, 7]),
        ("<a><!b", (34, 3, 1, 0), [7, 7, 7]),
    ] {
        let mut numbers = [7; 3];
        let answer = selected(&rt, "//*", listing, &mut numbers);
        assert_eq!(&rt; (faulted(answer), numbers), (Some(told), list), "{listing}");
    }
}

#[test]
fn faults_of_folder_tables(rt: HostRuntime) {
    for (depths, record, openings, reported, list) in [
        ([1, 1, 1, 1], 0, 0, 0, [7, 7, 7]),
        ([0, 1, 3, 1], 2, 2, 0, [7, 7, 7]),
        ([0, 1, 1, 3], 3, 3, 1, [1, 7, 7]),
        ([0, 1, 0, 2], 3, 3, 2, [1, 0, 7]),
    ] {
        let records = depths.map(|depth| Record {
            depth,
            label: LABEL,
        });
        let mut numbers = [7; 3];
        let answer = select(
            &Rule::new(),
            &[],
            &mut FolderTable::new(&records),
            &mut numbers,
        );
        let told = SelectFault {
            cause: Cause::Fault(TableFault::WrongDepth(record)),
            openings,
            reported,
        };
        assert_eq!(&rt; (answer, numbers), (Err(told), list), "{depths:?}");
    }
}

// Records of folders one in the other.
fn nest(records: &mut [Record<FolderCode>]) {
    let mut depth: u32 = 0;
    for record in records {
        record.depth = depth;
        depth = depth.wrapping_add(1);
    }
}

#[test]
fn levels(rt: HostRuntime) {
    let rule = Rule::new();
    let record = Record {
        depth: 0,
        label: LABEL,
    };
    let mut numbers = [777; 129];
    let mut most = [record; 128];
    nest(&mut most);
    let answer = select(&rule, &[], &mut FolderTable::new(&most), &mut numbers);
    assert_eq!(rt; answer, Ok(128));
    assert_eq!(rt; numbers[0], 127);
    assert_eq!(rt; numbers[127], 0);
    assert_eq!(rt; numbers[128], 777);
    let mut numbers = [777; 129];
    let mut more = [record; 129];
    nest(&mut more);
    let answer = select(&rule, &[], &mut FolderTable::new(&more), &mut numbers);
    assert_eq!(rt; refused(answer), Some((22, 128, 0)));
    assert_eq!(rt; numbers, [777; 129]);
}

// As many openings as a run accepts, and one more; no label meets the test.
#[test]
fn openings(rt: HostRuntime) -> Result<(), Fail> {
    let mut rule = Rule::new();
    rule.set_records(&[0, 0, 0])?;
    let record = Record {
        depth: 0,
        label: LABEL,
    };
    let records = vec![in rt.alloc(); record; 1_000_001]?;
    let answer = select(&rule, &[], &mut FolderTable::new(&records), &mut []);
    assert_eq!(rt; refused(answer), Some((23, 1_000_000, 0)));
    let answer = select(&rule, &[], &mut FolderTable::new(&records[1..]), &mut []);
    assert_eq!(rt; answer, Ok(0));
    Ok(())
}

// More selected nodes than numbers can wait.
#[test]
fn no_number_waits(rt: HostRuntime) {
    let records = [Record {
        depth: 0,
        label: LABEL,
    }; 100];
    let mut numbers = [777; 101];
    let answer = select(
        &Rule::new(),
        &[],
        &mut FolderTable::new(&records),
        &mut numbers,
    );
    assert_eq!(rt; answer, Ok(100));
    assert_eq!(rt; numbers[0], 0);
    assert_eq!(rt; numbers[99], 99);
    assert_eq!(rt; numbers[100], 777);
}

// The closing of a node that was opened before the selection has nothing to close.
#[test]
fn folder_tables_in_mid_course(rt: HostRuntime) {
    // of three folders, the second in the first
    let records = [0, 1, 0].map(|depth| Record {
        depth,
        label: LABEL,
    });
    for (past, count, told, list, left) in [
        (1, None, Some((20, 1, 1)), [0, 7], 2),
        (2, None, Some((20, 0, 0)), [7, 7], 3),
        (3, None, Some((20, 0, 0)), [7, 7], 2),
        (4, Some(1), None, [0, 7], 0),
        (6, Some(0), None, [7, 7], 0),
    ] {
        let mut source = FolderTable::new(&records);
        let _ = drained(&mut source, past);
        let mut numbers = [7; 2];
        let answer = select(&Rule::new(), &[], &mut source, &mut numbers);
        assert_eq!(&rt;
            (answer.ok(), refused(answer)),
            (count, told),
            "after {past}"
        );
        assert_eq!(&rt; numbers, list, "after {past}");
        assert_eq!(&rt; drained(&mut source, 9), (left, None), "after {past}");
    }
}

#[test]
fn listings_in_mid_course(rt: HostRuntime) -> Result<(), Fail> {
    let rule = Rule::new();
    let mut numbers = [7; 4];
    let mut source = Xml::new(FOUR.as_bytes());
    assert_eq!(rt; drained(&mut source, 3), (3, None));
    let answer = select(&rule, &[], &mut source, &mut numbers);
    assert_eq!(rt; refused(answer), Some((20, 2, 2)));
    assert_eq!(rt; numbers, [1, 0, 7, 7]);
    let mut empty = Xml::new(b"<a/>");
    assert!(rt; empty.next()?.is_some());
    let answer = select(&rule, &[], &mut empty, &mut numbers);
    assert_eq!(rt; refused(answer), Some((20, 0, 0)));
    assert_eq!(rt; select(&rule, &[], &mut empty, &mut []), Ok(0));
    Ok(())
}

// Two roots, of which the first is past.
#[test]
fn numbers_from_zero(rt: HostRuntime) {
    let records = [0, 0, 1, 1].map(|depth| Record {
        depth,
        label: LABEL,
    });
    let mut source = FolderTable::new(&records);
    assert_eq!(rt; drained(&mut source, 2), (2, None));
    let mut numbers = [7; 4];
    let answer = select(&Rule::new(), &[], &mut source, &mut numbers);
    assert_eq!(rt; answer, Ok(3));
    assert_eq!(rt; numbers, [1, 2, 0, 7]);
}

// A listing, and the same folders with siblings in another order.
const LISTING: &str = "<r><a><b/><d><c/></d></a><a><b/></a></r>";

fn folders() -> [Record<Name>; 7] {
    [
        (0, b'r'),
        (1, b'a'),
        (2, b'b'),
        (1, b'a'),
        (2, b'd'),
        (3, b'c'),
        (2, b'b'),
    ]
    .map(|(depth, letter)| Record {
        depth,
        label: Name::try_from(&[letter][..]).unwrap_or(Name::empty()),
    })
}

#[test]
fn side_by_side(rt: HostRuntime) {
    let records = folders();
    for (text, count, listed, tabled) in [
        ("//a[b]", 2, [1, 5, 7], [1, 3, 7]),
        ("//a[b][.//c]", 1, [1, 7, 7], [3, 7, 7]),
        ("//*[.//c]", 3, [3, 1, 0], [4, 3, 0]),
        ("//c[b]", 0, [7, 7, 7], [7, 7, 7]),
    ] {
        let mut rule = Rule::new();
        let mut names = [Name::empty(); NODE_LIMIT];
        assert_eq!(&rt; rule.read_text(text.as_bytes(), &mut names), Ok(()));
        let mut listing = Xml::new(LISTING.as_bytes());
        let mut table = FolderTable::new(&records);
        let mut ones = [7; 3];
        let mut twos = [7; 3];
        let both = select_both(
            &rule,
            &names,
            &mut listing,
            &mut table,
            &mut ones,
            &mut twos,
        );
        assert_eq!(&rt; (both.first, both.second), (Ok(count), Ok(count)), "{text}");
        assert_eq!(&rt; (ones, twos), (listed, tabled), "{text}");
    }
}

// One of the two ends early, and the other goes on.
#[test]
fn one_of_two_ends_early(rt: HostRuntime) {
    let rule = Rule::new();
    let mut records = folders();
    let mut listing = Xml::new(LISTING.as_bytes());
    let mut table = FolderTable::new(&records);
    let mut short = [9; 2];
    let mut long = [9; 7];
    let both = select_both(&rule, &[], &mut listing, &mut table, &mut short, &mut long);
    assert_eq!(rt; refused(both.first), Some((24, 5, 2)));
    assert_eq!(rt; both.second, Ok(7));
    assert_eq!(rt; short, [2, 4]);
    assert_eq!(rt; long, [2, 1, 5, 4, 6, 3, 0]);
    records[5].depth = 4;
    let mut listing = Xml::new(LISTING.as_bytes());
    let mut table = FolderTable::new(&records);
    let both = select_both(&rule, &[], &mut listing, &mut table, &mut long, &mut short);
    assert_eq!(rt; both.first, Ok(7));
    let told = SelectFault {
        cause: Cause::Fault(TableFault::WrongDepth(5)),
        openings: 5,
        reported: 2,
    };
    assert_eq!(rt; both.second, Err(told));
    assert_eq!(rt; long, [2, 4, 3, 1, 6, 5, 0]);
    assert_eq!(rt; short, [2, 1]);
}
