//! XML listings: the events that they tell, and how they end.
use labels::name::Name;
use sources::drain::drained;
use sources::event::Event;
use sources::source::Source;
use std::process::Abort;
use std::test::Fail;
use xml::fault::{LookFault, XmlFault};
use xml::reader::Xml;

// More events than a test has.
const MANY: usize = 1000;

fn name(letter: u8) -> Name {
    Name::try_from(&[letter][..]).unwrap_or(Name::empty())
}

// The fault that ends the listing, by its number and place.
fn fault(input: &[u8]) -> Option<(u32, usize)> {
    let (_, fault) = drained(&mut Xml::new(input), MANY);
    Some((fault?.number(), fault?.place()))
}

// The listing tells these events, where a letter is an opening with that name and `)` a closing, and is done, however often it is asked.
fn tells(rt: &impl Abort, input: &str, events: &str) {
    let mut source = Xml::new(input.as_bytes());
    for event in events.as_bytes() {
        let expected = match *event {
            b')' => Event::Close,
            letter => Event::Open(name(letter)),
        };
        assert_eq!(rt; source.next(), Ok(Some(expected)), "in {input}");
    }
    assert_eq!(rt; source.next(), Ok(None), "behind {input}");
    assert_eq!(rt; source.next(), Ok(None), "behind {input}");
}

// After so many events it has the fault with this number and place, however often it is asked.
fn refused(rt: &impl Abort, input: &[u8], events: usize, number: u32, place: usize) {
    let mut source = Xml::new(input);
    let (count, first) = drained(&mut source, MANY);
    let told = first.map(|fault| (fault.number(), fault.place()));
    assert_eq!(rt; (count, told), (events, Some((number, place))));
    assert_eq!(rt; drained(&mut source, MANY), (0, first));
}

#[test]
fn trees(rt: HostRuntime) {
    for (input, events) in [
        ("<a/>", "a)"),
        ("<a></a>", "a)"),
        ("<a><b/><c></c></a>", "ab)c))"),
        ("<a><a><a/></a></a>", "aaa)))"),
        ("<a b='c' d=\"e\"><f g/></a\t\n>", "af))"),
        ("<a b=c/>", "a)"),
        ("<a //>", "a)"),
        ("<a / ></a>", "a)"),
        ("<a /b></a>", "a)"),
        (" \t\r\n<?x?><!-- <b> --><a/> <!----> <??> ", "a)"),
        ("<a>t &amp; ]]> \0\u{e9}<!-- </a> --><?b </a> ?></a>", "a)"),
        ("<!--->--><?>?><a/>", "a)"),
    ] {
        tells(&rt, input, events);
    }
}

fn all_refused(rt: &impl Abort, cases: &[(&str, usize, u32, usize)]) {
    for (input, events, number, place) in cases {
        refused(rt, input.as_bytes(), *events, *number, *place);
    }
}

#[test]
fn outside_the_root(rt: HostRuntime) {
    all_refused(
        &rt,
        &[
            ("", 0, 31, 0),
            (" ", 0, 31, 1),
            ("x<a/>", 0, 30, 0),
            ("\u{feff}<a/>", 0, 30, 0),
            ("<a/> x", 2, 30, 5),
            ("<a/><b/>", 2, 30, 4),
            ("<a></a><b", 2, 30, 7),
            ("<a/><b12345678901234567890123456789012/>", 2, 30, 4),
            ("<?x?>", 0, 31, 5),
        ],
    );
}

#[test]
fn comments_and_instructions(rt: HostRuntime) {
    all_refused(
        &rt,
        &[
            ("<!DOCTYPE a><a/>", 0, 34, 0),
            ("<!", 0, 34, 0),
            ("<!-", 0, 34, 0),
            ("<a/><!x", 2, 34, 4),
            ("<!-->", 0, 31, 5),
            ("<!--->", 0, 31, 6),
            ("<!----", 0, 31, 6),
            ("<!----x", 0, 30, 6),
            ("<!-- -- -->", 0, 30, 7),
            ("<a><!-- -- -->", 1, 30, 10),
            ("<a/><!--", 2, 31, 8),
            ("<?", 0, 31, 2),
            ("<?>", 0, 31, 3),
            ("<a><?x>?", 1, 31, 8),
            ("<a/><?", 2, 31, 6),
            ("<a><![CDATA[x]]></a>", 1, 34, 3),
        ],
    );
}

#[test]
fn start_tags(rt: HostRuntime) {
    all_refused(
        &rt,
        &[
            ("<a+>", 0, 30, 2),
            ("<a/ >", 0, 30, 3),
            ("<a//>", 0, 30, 3),
            ("<a<", 0, 30, 2),
            ("<a b<c>", 0, 30, 4),
            ("<a b='<'/>", 0, 30, 6),
            ("<a b='c>d'/>", 1, 31, 12),
            ("<", 0, 31, 1),
            ("<1>", 0, 30, 1),
            ("<a>< b>", 1, 30, 4),
            ("<a/><1", 2, 30, 5),
            ("<a/><", 2, 31, 5),
        ],
    );
}

#[test]
fn end_tags(rt: HostRuntime) {
    all_refused(
        &rt,
        &[
            ("<a></1", 1, 30, 5),
            ("<a></ a>", 1, 30, 5),
            ("<a></>", 1, 30, 5),
            ("</", 0, 31, 2),
            ("<a></a/>", 1, 30, 6),
            ("<a></a b>", 1, 30, 7),
            ("<a><b></a>", 2, 33, 8),
            ("<a></b", 1, 33, 5),
            ("<a></ab>", 1, 33, 5),
            ("<ab></a", 1, 33, 6),
            ("</a>", 0, 33, 2),
            ("<a/></a>", 2, 33, 6),
            ("<a /></a>", 2, 33, 7),
        ],
    );
}

#[test]
fn names_too_long(rt: HostRuntime) {
    all_refused(
        &rt,
        &[
            ("</a12345678901234567890123456789012", 0, 32, 2),
            ("<a12345678901234567890123456789012/>", 0, 32, 1),
            ("<a><a12345678901234567890123456789012", 1, 32, 4),
            ("<a></a12345678901234567890123456789012>", 1, 32, 5),
        ],
    );
}

// Cut off anywhere, the listing ends too early there; but for `<!`, which then begins no comment.
#[test]
fn cut_off(rt: HostRuntime) {
    let input = b"<?a b?><a c='d' ><e/>f<!-- g --><h></h ></a >";
    assert_eq!(rt; drained(&mut Xml::new(input), MANY), (6, None));
    for len in 0..input.len() {
        let expected = if len == 24 || len == 25 {
            (34, 22)
        } else {
            (31, len)
        };
        assert_eq!(rt; fault(&input[..len]), Some(expected));
    }
}

// As many start tags as elements can be open, and then the tag again and again.
fn nest(input: &mut [u8], tag: &[u8; 4]) {
    for (i, byte) in input.iter_mut().enumerate() {
        *byte = if i < 384 { b"<a>"[i % 3] } else { tag[i % 4] };
    }
}

#[test]
fn levels(rt: HostRuntime) {
    let mut input = [0; 896];
    nest(&mut input, b"</a>");
    assert_eq!(rt; drained(&mut Xml::new(&input), MANY), (256, None));
    for tag in [b"<a/>", b"<aaa", b"<a> "] {
        nest(&mut input, tag);
        refused(&rt, &input, 128, 35, 384);
    }
    nest(&mut input, b"<1/>");
    refused(&rt, &input, 128, 30, 385);
}

// Where as many elements are open as can be, the depth comes before the length of a name.
#[test]
fn deep_and_long(rt: HostRuntime) {
    let mut input = [b'a'; 424];
    for (i, byte) in input.iter_mut().enumerate() {
        if i < 384 {
            *byte = b"<a>"[i % 3];
        } else if i == 384 {
            *byte = b'<';
        }
    }
    refused(&rt, &input, 128, 35, 384);
}

// No more events are heard than asked for.
#[test]
fn heard_in_part(rt: HostRuntime) {
    let mut source = Xml::new(b"<a><b/></b>");
    assert_eq!(rt; drained(&mut source, 0), (0, None));
    assert_eq!(rt; drained(&mut source, 1), (1, None));
    assert_eq!(rt; drained(&mut source, 2), (2, None));
    assert_eq!(rt; drained(&mut source, 1), (0, Some(XmlFault::WrongName(9))));
}

// A name as long as can be.
#[test]
fn long_names(rt: HostRuntime) -> Result<(), Fail> {
    let input = b"<a1234567890123456789012345678901></a1234567890123456789012345678901>";
    let mut source = Xml::new(input);
    assert_eq!(rt; source.look_ahead()?, &input[1..33]);
    let label = Name::try_from(&input[1..33])?;
    assert_eq!(rt; source.next()?, Some(Event::Open(label)));
    assert_eq!(rt; drained(&mut source, MANY), (1, None));
    let mut empty = Xml::new(b"<a1234567890123456789012345678901/>");
    assert_eq!(rt; drained(&mut empty, MANY), (2, None));
    Ok(())
}

#[test]
fn looks(rt: HostRuntime) -> Result<(), Fail> {
    let mut source = Xml::new(b" <ab><c/></ab>");
    assert_eq!(rt; source.look_ahead()?, b"ab".as_slice());
    assert_eq!(rt; source.look_ahead()?, b"ab".as_slice());
    let label = Name::try_from(b"ab".as_slice())?;
    assert_eq!(rt; source.next()?, Some(Event::Open(label)));
    assert_eq!(rt; source.look_ahead(), Err(LookFault::Begun));
    assert_eq!(rt; drained(&mut source, MANY), (3, None));
    assert_eq!(rt; source.look_ahead(), Err(LookFault::Begun));
    assert_eq!(rt;
        (LookFault::Begun.number(), LookFault::Begun.place()),
        (25, None)
    );
    Ok(())
}

// The closing of an empty element is still to come.
#[test]
fn looks_within_an_empty_element(rt: HostRuntime) {
    let mut source = Xml::new(b"<a/>");
    assert_eq!(rt; drained(&mut source, 1), (1, None));
    assert_eq!(rt; source.look_ahead(), Err(LookFault::Begun));
    assert_eq!(rt; drained(&mut source, MANY), (1, None));
}

// The look ahead answers the fault that next would, and next does then.
#[test]
fn looks_in_vain(rt: HostRuntime) {
    for (input, number, place) in [
        ("", 31, 0),
        ("x", 30, 0),
        ("<", 31, 1),
        ("</", 31, 2),
        (" <!-- a --> ", 31, 12),
        ("<a b<", 30, 4),
        ("</a", 33, 2),
        ("</1", 30, 2),
        ("<!a>", 34, 0),
        ("<a12345678901234567890123456789012", 32, 1),
    ] {
        let mut source = Xml::new(input.as_bytes());
        let Err(LookFault::Listing(fault)) = source.look_ahead() else {
            assert!(&rt; false, "no fault ahead in {input}");
            return;
        };
        assert_eq!(&rt; (fault.number(), fault.place()), (number, place));
        assert_eq!(&rt; source.next(), Err(fault));
        assert_eq!(&rt; source.look_ahead(), Err(LookFault::Listing(fault)));
    }
}
