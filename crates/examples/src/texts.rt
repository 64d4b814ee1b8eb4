//! Rules from texts and from records, and names.
use labels::name::Name;
use rules::rule::{NODE_LIMIT, Rule};
use std::io;

// Reads the text into a list for names, and prints how many rule nodes it gives, or its refusal.
fn show_read(rt: &impl Print, what: &str, text: &[u8], names: &mut [Name]) -> io::Result<()> {
    let mut rule = Rule::new();
    match rule.read_text(text, names) {
        Ok(()) => {
            let count = rule.nodes().len();
            println!(rt; "{what}: {count} rule nodes")
        }
        Err(refusal) => println!(rt; "{what}: refused {refusal}"),
    }
}

fn show_text(rt: &impl Print, text: &str) -> io::Result<()> {
    let mut names = [Name::empty(); NODE_LIMIT];
    show_read(rt, text, text.as_bytes(), &mut names)
}

// Sets a rule from the records, and prints how many rule nodes it has then, or the refusal.
fn show_set(rt: &impl Print, what: &str, records: &[u8]) -> io::Result<()> {
    let mut rule = Rule::new();
    match rule.set_records(records) {
        Ok(()) => {
            let count = rule.nodes().len();
            println!(rt; "{what}: {count} rule nodes")
        }
        Err(refusal) => println!(rt; "{what}: refused {refusal}"),
    }
}

// Makes a name of the bytes, and prints how many it has, or the refusal.
fn show_name(rt: &impl Print, bytes: &[u8]) -> io::Result<()> {
    let count = bytes.len();
    match Name::try_from(bytes) {
        Ok(name) => {
            let kept = name.to_bytes().len();
            println!(rt; "a name of {count} bytes has {kept}")
        }
        Err(refusal) => println!(rt; "a name of {count} bytes: refused {refusal}"),
    }
}

fn show_texts(rt: &impl Print) -> io::Result<()> {
    for text in [
        "//a[b][.//c]",
        " // a [ b.//c / * ] ",
        "//a[//b]",
        "//a[b",
        "/a",
        "//a[./b]",
        "//a[..//b]",
        "",
        "   ",
        "//abcdefghijklmnopqrstuvwxyz_12345",
        "//abcdefghijklmnopqrstuvwxyz_123456",
        "//a[a[a[a[a[a[a[a[a[a[a[a[a[a[a[a[a]]]]]]]]]]]]]]]]",
        "//a[a[a[a[a[a[a[a[a[a[a[a[a[a[a[a[a[a]]]]]]]]]]]]]]]]]",
    ] {
        show_text(rt, text)?;
    }
    Ok(())
}

fn show_lengths(rt: &impl Print) -> io::Result<()> {
    let mut names = [Name::empty(); NODE_LIMIT];
    let mut text = [b' '; 1025];
    text[..3].copy_from_slice(b"//*");
    show_read(rt, "a rule text of 1,024 bytes", &text[..1024], &mut names)?;
    show_read(rt, "a rule text of 1,025 bytes", &text, &mut names)
}

// Writes a text of one step with predicates `[*]`: as many tests as three bytes each have room for.
fn write_tests(text: &mut [u8]) {
    let mut before: [u8; 3] = *b"//*";
    for test in text.chunks_exact_mut(3) {
        test.copy_from_slice(&before);
        before = *b"[*]";
    }
}

fn show_tests(rt: &impl Print) -> io::Result<()> {
    let mut names = [Name::empty(); NODE_LIMIT];
    let mut most = [0; 192];
    write_tests(&mut most);
    show_read(rt, "a rule text of 64 tests", &most, &mut names)?;
    let mut more = [0; 195];
    write_tests(&mut more);
    show_read(rt, "a rule text of 65 tests", &more, &mut names)
}

fn show_lists(rt: &impl Print) -> io::Result<()> {
    let mut names = [Name::empty(); 64];
    show_read(rt, "//a, with a list of 64 names", b"//a", &mut names)?;
    let mut names = [Name::empty(); 63];
    show_read(rt, "//a, with a list of 63 names", b"//a", &mut names)
}

fn show_records(rt: &impl Print) -> io::Result<()> {
    show_set(rt, "records 0 0 0, 0 1 1", &[0, 0, 0, 0, 1, 1])?;
    show_set(rt, "records 0 0 0, 0 1", &[0, 0, 0, 0, 1])?;
    show_set(rt, "records 0 0 0, 1 0 0", &[0, 0, 0, 1, 0, 0])?;
    show_set(rt, "64 records", &[0; 192])?;
    show_set(rt, "65 records", &[0; 195])
}

pub fn show(rt: &impl Print) -> io::Result<()> {
    show_texts(rt)?;
    show_lengths(rt)?;
    show_tests(rt)?;
    show_lists(rt)?;
    show_records(rt)?;
    show_name(rt, &[b'n'; 32])?;
    show_name(rt, &[b'n'; 33])
}
