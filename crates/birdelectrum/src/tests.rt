//! Whole inputs.
use crate::printing::run;
use reports::report::{Report, report_on};
use std::process::Abort;

// The report on an input, with room for four numbers.
fn report(input: &[u8]) -> Report {
    let mut numbers = [0; 4];
    report_on(input, &mut numbers)
}

fn refused(rt: &impl Abort, input: &[u8], reported: usize, number: u32, place: usize) {
    let report = report(input);
    assert_eq!(rt; report.reported, reported);
    let told = report
        .verdict
        .map_err(|refusal| (refusal.number(), refusal.place()));
    assert_eq!(rt; told, Err((number, place)));
}

#[test]
fn too_long(rt: HostRuntime) {
    let input = [b' '; 65_537];
    refused(&rt, &input[0..65_536], 0, 10, 0);
    refused(&rt, &input, 0, 50, 65_536);
}

#[test]
fn no_listing(rt: HostRuntime) {
    refused(&rt, b"", 0, 10, 0);
    refused(&rt, b"//a", 0, 31, 0);
    refused(&rt, b"//a[\n<a/>", 0, 11, 4);
}

#[test]
fn a_fault_after_numbers(rt: HostRuntime) {
    refused(&rt, b"//b\n<a><b/><b/></c>", 2, 33, 13);
}

// What is printed of inputs.
const PRINTED: [(&[u8], &[u8]); 3] = [
    (b"//b\n<a><b/><b/></a>", b"1\n2\nselected 2\n"),
    (b"//b\n<a><b/><b/></c>", b"1\n2\nrefused 33 at 13\n"),
    (b"//a[\n<a/>", b"refused 11 at 4\n"),
];

#[test]
fn printed(rt: HostRuntime) {
    for (input, text) in PRINTED {
        let mut written = Vec::new(rt.alloc());
        run(input, &mut written, rt.alloc()).expect(&rt, "memory");
        assert_eq!(rt; written.as_slice(), text, "of {input:?}");
    }
}
