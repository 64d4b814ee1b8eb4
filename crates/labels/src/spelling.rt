//! How names are spelled in rule texts and in listings. Bytes and a place go in and a place comes out: refusals tell places, so a cursor
//! over both would be taken apart and made again.
ghost use Rattle.std.specs.Prelude.{◌≡◌, ◌<◌, ◌≤◌, length, drop, MatchResult};
ghost use Rattle.labels.specs.Spelling.{is_white, starts_name, continues_name, byte_at, Longest, LongestBy, Spelled};
ghost use Rattle.labels.specs.NoName.{Unended};

/// The bytes that a name has at most.
pub const NAME_LIMIT: usize = 32;

/// Space, tab, line feed and carriage return.
pub fn is_white(b: u8) -> bool
    ensures { result ≡ is_white b }
{
    b == b' ' || b == b'\t' || b == b'\n' || b == b'\r'
}

/// Whether a name can begin with the byte.
pub fn starts_name(b: u8) -> bool
    ensures { result ≡ starts_name b }
{
    b.is_ascii_alphabetic() || b == b'_'
}

/// Whether the byte can stand inside a name.
pub fn continues_name(b: u8) -> bool
    ensures { result ≡ continues_name b }
{
    starts_name(b) || b.is_ascii_digit() || b == b'.' || b == b'-'
}

/// The bytes from the place on; past the end there are none.
pub fn rest(bytes: &[u8], from: usize) -> &[u8]
    ensures { result.now ≡ drop from bytes.now }
{
    bytes.get(from..).unwrap_or_default()
}

/// The first place from `from` on whose byte does not pass, or the length; past the end it is `from`.
pub fn run_end<F: Fn(u8) -> bool>(bytes: &[u8], from: usize, passes: F) -> usize
    requires { F.IsAlwaysCallable passes }
    ensures within { from ≤ length bytes.now → LongestBy (F.post passes) bytes.now from result }
    ensures past { length bytes.now < from → result ≡ from }
{
    let rest = rest(bytes, from);
    from + rest.iter().position(|b| !passes(*b)).unwrap_or(rest.len())
}

/// The first place from `from` on where no white space stands, or the length; past the end it is `from`.
pub fn white_end(bytes: &[u8], from: usize) -> usize
    ensures within { from ≤ length bytes.now → Longest (λ i. is_white (byte_at bytes.now i)) (length bytes.now) from result }
    ensures past { length bytes.now < from → result ≡ from }
{
    run_end(bytes, from, is_white)
}

/// Why no name ends: none begins at the place, or the one that does is too long, and ends there.
#[derive(Clone, Copy, PartialEq, Eq, Debug)]
pub enum NoName {
    Missing,
    TooLong(usize),
}

/// The end of the name at the place.
pub fn name_end(bytes: &[u8], at: usize) -> Result<usize, NoName>
    ensures { MatchResult result (Spelled bytes.now at) (Unended bytes.now at) }
{
    if !bytes.get(at).copied().is_some_and(starts_name) {
        return Err(NoName::Missing);
    }
    let end = run_end(bytes, at, continues_name);
    if end - at > NAME_LIMIT {
        return Err(NoName::TooLong(end));
    }
    Ok(end)
}
