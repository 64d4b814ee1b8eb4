//! XML listings.
use crate::ended::{EVENTS, show_ended};
use sources::drain::drained;
use sources::source::Source;
use std::io;
use xml::reader::Xml;

// Prints how many events the listing tells, and the fault behind them, if there is one.
fn show_listing(rt: &impl Print, what: &str, listing: &[u8]) -> io::Result<()> {
    let mut source = Xml::new(listing);
    let (count, fault) = drained(&mut source, EVENTS);
    print!(rt; "{what}: ")?;
    show_ended(rt, count, fault)
}

fn show_listings(rt: &impl Print) -> io::Result<()> {
    for listing in [
        "<r><a><b/><d><c/></d></a><a><b/></a></r>",
        "<a b='c'/> <!-- end -->",
        "<a b=c/>",
        "<a //>",
        "<a /b>",
        "<a / >",
        "<a/ >",
        "<a//>",
        "<a><b></a>",
        "<a/><b/>",
        "<a></b",
        "<a></a",
        "<ab></a",
        "<a></a><b",
        "<a>",
        "<!-->",
        "<!--->",
        "<?>",
        "<!DOCTYPE a><a/>",
        "<abcdefghijklmnopqrstuvwxyz_12345/>",
        "<abcdefghijklmnopqrstuvwxyz_123456/>",
    ] {
        show_listing(rt, listing, listing.as_bytes())?;
    }
    Ok(())
}

// Writes start tags up to the place, and end tags behind it.
fn nest(listing: &mut [u8], place: usize) {
    for (i, byte) in listing.iter_mut().enumerate() {
        *byte = if i < place {
            b"<a>"[i % 3]
        } else {
            b"</a>"[(i - place) % 4]
        };
    }
}

fn show_levels(rt: &impl Print) -> io::Result<()> {
    let mut most = [0; 896];
    nest(&mut most, 384);
    show_listing(rt, "128 elements, one in the other", &most)?;
    let mut more = [0; 903];
    nest(&mut more, 387);
    show_listing(rt, "129 elements, one in the other", &more)
}

// Looks ahead at the root's name, and prints how many bytes it has, or why there is none.
fn show_look(rt: &impl Print, what: &str, source: &mut Xml<'_>) -> io::Result<()> {
    match source.look_ahead() {
        Ok(name) => {
            let count = name.len();
            println!(rt; "{what}: the root's name has {count} bytes")
        }
        Err(fault) => println!(rt; "{what}: refused {fault}"),
    }
}

fn show_looks(rt: &impl Print) -> io::Result<()> {
    let mut source = Xml::new(b"<ab><c/></ab>");
    show_look(rt, "<ab><c/></ab>, a look ahead", &mut source)?;
    let _ = source.next();
    show_look(
        rt,
        "<ab><c/></ab>, a look ahead after an event",
        &mut source,
    )
}

pub fn show(rt: &impl Print) -> io::Result<()> {
    show_listings(rt)?;
    show_levels(rt)?;
    show_looks(rt)
}
