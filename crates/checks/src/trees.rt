//! Rules on trees: which nodes are selected.
use labels::name::Name;
use rules::rule::{NODE_LIMIT, Rule};
use runs::call::{Answer, Call};
use runs::journal::replay;
use std::test::Fail;

// How many calls an example has at most.
const CALLS: usize = 32;

// A number that no node of an example has.
const UNUSED: u32 = 99;

#[derive(Drop)]
struct Calls {
    list: [Call<Name>; CALLS],
    len: usize,
}

impl Calls {
    fn push(&mut self, call: Call<Name>) {
        if let Some(slot) = self.list.get_mut(self.len) {
            *slot = call;
            self.len += 1;
        }
    }

    fn as_slice(&self) -> &[Call<Name>] {
        &self.list[..self.len.min(CALLS)]
    }
}

fn name(letter: u8) -> Name {
    Name::try_from(&[letter][..]).unwrap_or(Name::empty())
}

// The calls of a tree: a letter is a node, and its children stand in brackets behind it.
fn calls_of(tree: &[u8]) -> Calls {
    let mut calls = Calls {
        list: [Call::Close; CALLS],
        len: 0,
    };
    for (i, byte) in tree.iter().enumerate() {
        match *byte {
            b' ' | b'(' => {}
            b')' => calls.push(Call::Close),
            letter => {
                calls.push(Call::Open(name(letter)));
                if tree.get(i + 1) != Some(&b'(') {
                    calls.push(Call::Close);
                }
            }
        }
    }
    calls
}

// Replays the calls with the rule of the text, then takes what waits; the numbers stand in front, the others are `UNUSED`. `None`
// where the text is refused or the calls are not made to the end.
fn numbers(text: &[u8], calls: &[Call<Name>]) -> Option<[u32; 4]> {
    let mut rule = Rule::new();
    let mut names = [Name::empty(); NODE_LIMIT];
    let mut answers = [Answer::Dropped; CALLS];
    let mut numbers = [UNUSED; 4];
    rule.read_text(text, &mut names).ok()?;
    let Ok(mut outcome) = replay(&rule, &names, calls, &mut answers, &mut []) else {
        return None;
    };
    outcome.run.take(&mut numbers);
    Some(numbers)
}

fn selected(text: &[u8], tree: &[u8]) -> Option<[u32; 4]> {
    numbers(text, calls_of(tree).as_slice())
}

#[test]
fn trees(rt: HostRuntime) {
    assert_eq!(rt;
        selected(b"//a[a]", b"a(a(a))"),
        Some([1, 0, UNUSED, UNUSED])
    );
    assert_eq!(rt;
        selected(b"//a[b][b]", b"a(b)"),
        Some([0, UNUSED, UNUSED, UNUSED])
    );
    assert_eq!(rt;
        selected(b"//a[b[c][d]]", b"a(b(c) b(d))"),
        Some([UNUSED; 4])
    );
    assert_eq!(rt;
        selected(b"//a[b/c][b/d]", b"a(b(c) b(d))"),
        Some([0, UNUSED, UNUSED, UNUSED])
    );
    assert_eq!(rt; selected(b"//a[c]", b"a(b(c))"), Some([UNUSED; 4]));
    assert_eq!(rt;
        selected(b"//a[.//c]", b"a(b(c))"),
        Some([0, UNUSED, UNUSED, UNUSED])
    );
    assert_eq!(rt; selected(b"//a[.//a]", b"a"), Some([UNUSED; 4]));
    assert_eq!(rt;
        selected(b"//*[*]", b"a(b c(d))"),
        Some([2, 0, UNUSED, UNUSED])
    );
    assert_eq!(rt;
        selected(b"//*[.//d]", b"a(b c(d))"),
        Some([2, 0, UNUSED, UNUSED])
    );
    assert_eq!(rt; selected(b"//*", b"a(b c) d"), Some([1, 2, 0, 3]));
}

// A dropped node is not in the tree; what was closed below it before keeps its number.
#[test]
fn dropped_nodes(rt: HostRuntime) {
    let a = name(b'a');
    let b = name(b'b');
    let calls = [Call::Open(a), Call::Open(b), Call::Drop, Call::Close];
    assert_eq!(rt; numbers(b"//a[b]", &calls), Some([UNUSED; 4]));
    let calls = [
        Call::Open(a),
        Call::Open(a),
        Call::Open(b),
        Call::Close,
        Call::Close,
        Call::Drop,
        Call::Close,
    ];
    assert_eq!(rt;
        numbers(b"//a[b]", &calls),
        Some([1, UNUSED, UNUSED, UNUSED])
    );
    assert_eq!(rt;
        numbers(b"//a[.//b]", &calls[..5]),
        Some([1, UNUSED, UNUSED, UNUSED])
    );
}
