//! Selections: their list, and one listing as XML and as a folder table, side by side.
use labels::name::Name;
use rules::rule::{NODE_LIMIT, Rule};
use selection::both::select_both;
use selection::refusal::{Cause, SelectFault};
use selection::select::select;
use sources::record::{FolderTable, Record};
use std::fmt::Display;
use std::io;
use xml::reader::Xml;

// Room for as many numbers as there are nodes in the listing.
const ROOM: usize = 7;

const LISTING: &str = "<r><a><b/><d><c/></d></a><a><b/></a></r>";

// The same folders with siblings in another order, by depth and name.
const FOLDERS: [(u32, &str); ROOM] = [
    (0, "r"),
    (1, "a"),
    (2, "b"),
    (1, "a"),
    (2, "d"),
    (3, "c"),
    (2, "b"),
];

// The first numbers of a list, as many as there are up to the count.
fn front(numbers: &[u32], count: usize) -> &[u32] {
    &numbers[..count.min(numbers.len())]
}

// Prints the numbers that a selection reported, and what ended it, where its source was not done.
fn show_answer<F: Display + Copy>(
    rt: &impl Print,
    answer: Result<usize, SelectFault<F>>,
    numbers: &[u32],
) -> io::Result<()> {
    match answer {
        Ok(count) => println!(rt; "{:?}", front(numbers, count)),
        Err(fault) => {
            let openings = fault.openings;
            let reported = front(numbers, fault.reported);
            print!(rt; "{reported:?}, after {openings} openings refused ")?;
            match fault.cause {
                Cause::Fault(fault) => println!(rt; "{fault}"),
                Cause::Refused(refusal) => println!(rt; "{refusal}"),
            }
        }
    }
}

// Selects from a listing with the rule `//*`.
fn show_all(rt: &impl Print, listing: &str, numbers: &mut [u32]) -> io::Result<()> {
    let rule = Rule::new();
    let room = numbers.len();
    let answer = select(&rule, &[], &mut Xml::new(listing.as_bytes()), numbers);
    print!(rt; "//* on {listing} with a list of {room}: ")?;
    show_answer(rt, answer, numbers)
}

// Selects from the listing and from the records with the rule of the text.
fn show_both(rt: &impl Print, text: &str, records: &[Record<Name>]) -> io::Result<()> {
    let mut rule = Rule::new();
    let mut names = [Name::empty(); NODE_LIMIT];
    if let Err(refusal) = rule.read_text(text.as_bytes(), &mut names) {
        return println!(rt; "{text}: refused {refusal}");
    }
    let mut listing = Xml::new(LISTING.as_bytes());
    let mut folders = FolderTable::new(records);
    let mut ones = [0; ROOM];
    let mut twos = [0; ROOM];
    let both = select_both(
        &rule,
        &names,
        &mut listing,
        &mut folders,
        &mut ones,
        &mut twos,
    );
    print!(rt; "{text} on the listing: ")?;
    show_answer(rt, both.first, &ones)?;
    print!(rt; "{text} on the folders: ")?;
    show_answer(rt, both.second, &twos)?;
    let (Ok(one), Ok(two)) = (both.first, both.second) else {
        return Ok(());
    };
    let equal = one == two;
    println!(rt; "{text} reports {one} and {two}, equal {equal}")
}

fn show_pair(rt: &impl Print) -> io::Result<()> {
    let records = FOLDERS.map(|(depth, name)| Record {
        depth,
        label: Name::try_from(name.as_bytes()).unwrap_or(Name::empty()),
    });
    println!(rt; "the listing: {LISTING}")?;
    println!(rt; "the folders: {FOLDERS:?}")?;
    for text in ["//a[b]", "//a[b][.//c]", "//*[.//c]", "//*", "//c[b]"] {
        show_both(rt, text, &records)?;
    }
    Ok(())
}

pub fn show(rt: &impl Print) -> io::Result<()> {
    show_all(rt, "<a><b/></a>", &mut [0; 2])?;
    show_all(rt, "<a><b/></a>", &mut [0; 1])?;
    show_all(rt, "<a><b/></c>", &mut [0; 2])?;
    show_pair(rt)
}
