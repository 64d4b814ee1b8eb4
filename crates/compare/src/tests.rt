//! Whole inputs.
use crate::comparison::compare;
use crate::printing::run;

// For each input: the agreement, and how many folders are reported from each listing.
const COMPARED: [(&[u8], Option<bool>, usize, usize); 9] = [
    (b"//a\n<r><a/><b/></r>\0<r><b/><a/></r>", Some(true), 1, 1),
    (
        b"//a[b]\n<r><a><b/></a><a/></r>\0<r><a/><a><b/></a></r>",
        Some(true),
        1,
        1,
    ),
    (b"//a\n<r><a/></r>\0<r><b/><a/><a/></r>", Some(false), 1, 2),
    (b"//a\n<r><a/></r>\0<s><a/></s>", Some(false), 1, 1),
    (
        b"//*\n<r><a/><a/><b/></r>\0<r><a/><b/><b/></r>",
        Some(false),
        4,
        4,
    ),
    (
        b"//*\n<r><a/><a/><b/></r>\0<r><a/><b/><a/></r>",
        Some(true),
        4,
        4,
    ),
    (b"//a\n<r/>\0<r/>", Some(true), 0, 0),
    (b"//a\n<r><a/></r>", None, 1, 0),
    (b"//a\n<r><a/></b>\0<r><a/></r>", None, 1, 1),
];

#[test]
fn inputs(rt: HostRuntime) {
    for (input, agreement, first, second) in COMPARED {
        let mut ones = [7; 4];
        let mut twos = [7; 4];
        let comparison = compare(input, &mut ones, &mut twos, rt.alloc())
            .expect(&rt, "memory")
            .expect(&rt, "a good input");
        assert_eq!(rt; comparison.agreement, agreement, "in {input:?}");
        assert_eq!(rt; comparison.first.report.reported, first, "in {input:?}");
        assert_eq!(rt; comparison.second.report.reported, second, "in {input:?}");
    }
}

#[test]
fn refused(rt: HostRuntime) {
    let told = compare(b"//a[\n<a/>\0<a/>", &mut [], &mut [], rt.alloc())
        .expect(&rt, "memory")
        .map(|_| ())
        .map_err(|refusal| (refusal.number(), refusal.place()));
    assert_eq!(rt; told, Err((11, 4)));
}

// What is printed of inputs.
const PRINTED: [(&[u8], &[u8]); 4] = [
    (
        b"//a\n<r><a/></r>\0<r><a/><b/><a/></r>",
        b"/r/a\nselected 1\n/r/a\n/r/a\nselected 2\nnot alike\n",
    ),
    (
        b"//a\n<r><a/></b>\0<r><a/></r>",
        b"/r/a\nrefused 33 at 9\n/r/a\nselected 1\nnot compared\n",
    ),
    (b"//a\n<r/>\0<r/>", b"selected 0\nselected 0\nalike\n"),
    (b"//a[\n<a/>\0<a/>", b"refused 11 at 4\n"),
];

#[test]
fn printed(rt: HostRuntime) {
    for (input, text) in PRINTED {
        let mut written = Vec::new(rt.alloc());
        run(input, &mut written, rt.alloc()).expect(&rt, "memory");
        assert_eq!(rt; written.as_slice(), text, "of {input:?}");
    }
}
