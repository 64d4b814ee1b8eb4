//! Examples of rule texts, and every refusal at its limit.
use labels::name::{Name, NameRefusal};
use rules::refusal::TextRefusal;
use rules::rule::Rule;
use std::test::Fail;

// How many rule nodes the text gives.
fn count(text: &[u8]) -> Result<usize, TextRefusal> {
    let mut rule = Rule::new();
    let mut names = [Name::empty(); 64];
    rule.read_text(text, &mut names)?;
    Ok(rule.nodes().len())
}

#[test]
fn good_texts(rt: HostRuntime) {
    assert_eq!(rt; count(b"//a"), Ok(1));
    assert_eq!(rt; count(b"//a[b][.//c]"), Ok(3));
    assert_eq!(rt; count(b" // a [ b / c // * ] "), Ok(4));
    assert_eq!(rt; count(b"//a[b.//c]"), Ok(3));
    assert_eq!(rt; count(b"//a\t[\r\nb]"), Ok(2));
    assert_eq!(rt; count(b"//or[div][text]"), Ok(3));
}

#[test]
fn tokens_are_judged_whole(rt: HostRuntime) {
    assert_eq!(rt; count(b"/a"), Err(TextRefusal::NotAllowed(0)));
    assert_eq!(rt; count(b"//a[./b]"), Err(TextRefusal::NotAllowed(5)));
    assert_eq!(rt; count(b"//a[//b]"), Err(TextRefusal::NotAllowed(4)));
    assert_eq!(rt; count(b"//a[b"), Err(TextRefusal::NotAllowed(5)));
    assert_eq!(rt; count(b"  "), Err(TextRefusal::NotAllowed(2)));
    assert_eq!(rt; count(b"/ /a"), Err(TextRefusal::NotAllowed(0)));
    assert_eq!(rt; count(b"//a b"), Err(TextRefusal::NotAllowed(4)));
    assert_eq!(rt; count(b"//a$"), Err(TextRefusal::NotAllowed(3)));
    assert_eq!(rt; count(b"//a/b"), Err(TextRefusal::NotAllowed(3)));
    assert_eq!(rt; count(b"//a]"), Err(TextRefusal::NotAllowed(3)));
    assert_eq!(rt; count(b"//a[..//b]"), Err(TextRefusal::NotAllowed(5)));
}

#[test]
fn lengths(rt: HostRuntime) {
    let mut text = [b' '; 1025];
    assert_eq!(rt; count(&text[0..0]), Err(TextRefusal::Length));
    text[0] = b'/';
    text[1] = b'/';
    text[2] = b'*';
    assert_eq!(rt; count(&text[0..1024]), Ok(1));
    assert_eq!(rt; count(&text), Err(TextRefusal::Length));
    assert_eq!(rt; count(&[b'x'; 1025]), Err(TextRefusal::Length));
}

#[test]
fn names(rt: HostRuntime) {
    let mut text = [b'n'; 35];
    text[0] = b'/';
    text[1] = b'/';
    assert_eq!(rt; count(&text[0..34]), Ok(1));
    assert_eq!(rt; count(&text), Err(TextRefusal::LongName(2)));
}

// Writes a text of one step with predicates `[*]`: as many tests as three bytes each have room for.
fn write_tests(text: &mut [u8]) {
    let mut before: [u8; 3] = *b"//*";
    for test in text.chunks_exact_mut(3) {
        test.copy_from_slice(&before);
        before = *b"[*]";
    }
}

#[test]
fn tests(rt: HostRuntime) {
    let mut text = [0; 195];
    write_tests(&mut text);
    assert_eq!(rt; count(&text[0..192]), Ok(64));
    assert_eq!(rt; count(&text), Err(TextRefusal::ManyTests(193)));
}

#[test]
fn named_last_test(rt: HostRuntime) {
    let mut text = [b'n'; 195];
    write_tests(&mut text[..192]);
    text[192] = b'[';
    text[194] = b']';
    assert_eq!(rt; count(&text), Err(TextRefusal::ManyTests(193)));
}

#[test]
fn long_last_test(rt: HostRuntime) {
    let mut text = [b'n'; 227];
    write_tests(&mut text[..192]);
    text[192] = b'[';
    text[226] = b']';
    assert_eq!(rt; count(&text), Err(TextRefusal::ManyTests(193)));
}

// At one place what is not allowed comes before the limits: a 65th test, a long name and a 17th bracket.
#[test]
fn not_allowed_comes_first(rt: HostRuntime) {
    let mut text = [b'n'; 226];
    write_tests(&mut text[..192]);
    text[192] = b' ';
    assert_eq!(rt; count(&text[0..194]), Err(TextRefusal::NotAllowed(193)));
    assert_eq!(rt; count(&text), Err(TextRefusal::NotAllowed(193)));
    assert_eq!(rt;
        count(b"//a[a[a[a[a[a[a[a[a[a[a[a[a[a[a[a[[a"),
        Err(TextRefusal::NotAllowed(34))
    );
}

// The lowest place comes first, whatever stands behind it.
#[test]
fn lowest_place_comes_first(rt: HostRuntime) {
    assert_eq!(rt; count(b"//a[b]]//"), Err(TextRefusal::NotAllowed(6)));
    assert_eq!(rt;
        count(b"//nnnnnnnnnnnnnnnnnnnnnnnnnnnnnnnnn["),
        Err(TextRefusal::LongName(2))
    );
}

#[test]
fn brackets(rt: HostRuntime) {
    assert_eq!(rt;
        count(b"//a[a[a[a[a[a[a[a[a[a[a[a[a[a[a[a[a]]]]]]]]]]]]]]]]"),
        Ok(17)
    );
    assert_eq!(rt;
        count(b"//a[a[a[a[a[a[a[a[a[a[a[a[a[a[a[a[a[a]]]]]]]]]]]]]]]]]"),
        Err(TextRefusal::DeepBracket(35))
    );
}

// A text and records give the same rule nodes, and a refused text leaves them.
#[test]
fn texts_and_records(rt: HostRuntime) -> Result<(), Fail> {
    let mut read = Rule::new();
    let mut set = Rule::new();
    let mut names = [Name::empty(); 64];
    read.read_text(b"//a[.//*[b]//c]", &mut names)?;
    set.set_records(&[0, 0, 0, 0, 1, 1, 1, 0, 0, 1, 1, 0])?;
    assert_eq!(rt; read.nodes(), set.nodes());
    assert!(rt; read.read_text(b"//a[", &mut names).is_err());
    assert_eq!(rt; read.nodes(), set.nodes());
    Ok(())
}

// The names that reading leaves in a list of names `old`, by their first bytes.
fn first_bytes(text: &[u8]) -> Result<[Option<u8>; 4], NameRefusal> {
    let mut rule = Rule::new();
    let mut names = [Name::try_from(b"old".as_slice())?; 64];
    let _ = rule.read_text(text, &mut names);
    Ok([
        names[0].to_bytes().first().copied(),
        names[1].to_bytes().first().copied(),
        names[2].to_bytes().first().copied(),
        names[3].to_bytes().first().copied(),
    ])
}

#[test]
fn names_at_their_numbers(rt: HostRuntime) {
    assert!(rt; first_bytes(b"//a[*[b]]") == Ok([Some(b'a'), Some(b'o'), Some(b'b'), Some(b'o')]));
    assert!(rt; first_bytes(b"//a[b][c") == Ok([Some(b'o'), Some(b'o'), Some(b'o'), Some(b'o')]));
}

#[test]
fn numbers_and_places(rt: HostRuntime) {
    let told = |refusal: TextRefusal| (refusal.number(), refusal.place());
    assert_eq!(rt; told(TextRefusal::Length), (10, 0));
    assert_eq!(rt; told(TextRefusal::NotAllowed(7)), (11, 7));
    assert_eq!(rt; told(TextRefusal::LongName(7)), (12, 7));
    assert_eq!(rt; told(TextRefusal::ManyTests(7)), (13, 7));
    assert_eq!(rt; told(TextRefusal::DeepBracket(7)), (14, 7));
    assert_eq!(rt; told(TextRefusal::ShortList), (17, 0));
}

#[test]
fn short_list(rt: HostRuntime) {
    let mut rule = Rule::new();
    let mut names = [Name::empty(); 63];
    assert_eq!(rt;
        rule.read_text(b"//a", &mut names),
        Err(TextRefusal::ShortList)
    );
    assert_eq!(rt;
        rule.read_text(b"", &mut names),
        Err(TextRefusal::ShortList)
    );
    assert_eq!(rt; rule.nodes(), Rule::new().nodes());
    assert_eq!(rt; names[0], Name::empty());
}
