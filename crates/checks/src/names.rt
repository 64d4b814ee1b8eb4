//! Names at their limits.
use labels::code::FolderCode;
use labels::kind::NameLabel;
use labels::name::{Name, NameRefusal};
use labels::spelling::{NoName, name_end};

// Whether the name of the bytes has these bytes.
fn reads_back(bytes: &[u8]) -> Result<bool, NameRefusal> {
    let name = Name::try_from(bytes)?;
    Ok(name.to_bytes().as_slice() == bytes)
}

#[test]
fn bytes_come_back(rt: HostRuntime) {
    let bytes = *b"\x00\xff23456789abcdefghijklmnopqrstu\xfe";
    for n in 0..33usize {
        assert_eq!(rt; reads_back(&bytes[0..n]), Ok(true));
    }
    assert!(rt; Name::empty().to_bytes().is_empty());
}

#[test]
fn long_names_are_refused(rt: HostRuntime) {
    let bytes = [b'n'; 33];
    assert_eq!(rt; reads_back(&bytes[0..32]), Ok(true));
    assert_eq!(rt; reads_back(&bytes), Err(NameRefusal::TooLong));
    assert_eq!(rt; NameRefusal::TooLong.number(), 36);
}

#[test]
fn labels_from_names(rt: HostRuntime) {
    let bytes = [b'n'; 33];
    assert_eq!(rt;
        Name::from_bytes(&bytes[0..32]),
        Name::try_from(&bytes[0..32])
    );
    assert_eq!(rt; Name::from_bytes(&bytes), Err(NameRefusal::TooLong));
}

// Whether the names of the bytes are equal.
fn equal(a: &[u8], b: &[u8]) -> Result<bool, NameRefusal> {
    Ok(Name::try_from(a)? == Name::try_from(b)?)
}

#[test]
fn names_are_equal_as_bytes(rt: HostRuntime) {
    assert_eq!(rt; equal(b"plans", b"plans"), Ok(true));
    assert_eq!(rt; equal(b"plans", b"Plans"), Ok(false));
    assert_eq!(rt; equal(b"a", b"a\x00"), Ok(false));
    assert_eq!(rt; equal(b"\x00a", b"a"), Ok(false));
    assert_eq!(rt; equal(b"12345678", b"1234567812345678"), Ok(false));
    assert_eq!(rt; equal(b"", b""), Ok(true));
}

#[test]
fn codes_are_equal_as_numbers(rt: HostRuntime) {
    assert!(rt; FolderCode(7) == FolderCode(7));
    assert!(rt; FolderCode(7) != FolderCode(4294967295));
}

#[test]
fn names_end(rt: HostRuntime) {
    assert_eq!(rt; name_end(b"/_a-1.b c", 1), Ok(7));
    assert_eq!(rt; name_end(b"abc", 0), Ok(3));
    assert_eq!(rt; name_end(b"1a", 0), Err(NoName::Missing));
    assert_eq!(rt; name_end(b"abc", 3), Err(NoName::Missing));
    assert_eq!(rt; name_end(b"abc", 4), Err(NoName::Missing));
    let bytes = [b'n'; 33];
    assert_eq!(rt; name_end(&bytes, 1), Ok(33));
    assert_eq!(rt; name_end(&bytes, 0), Err(NoName::TooLong(33)));
}
