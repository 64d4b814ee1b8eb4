//! Reading an input.
ghost use Rattle.std.specs.Prelude.{◌≡◌, ◌+◌, take, IfOk, IfSome};
ghost use Rattle.reports.specs.Refusals.{input_limit};

use crate::refusal::INPUT_LIMIT;
use std::alloc::Global;
use std::io;
use std::io::Read;

/// Reads an input to its end, or one byte more than the limit, which shows that there are more.
pub fn read_input<R: Read + Drop>(reader: R, heap: Global) -> io::Result<Vec<u8>>
    ensures { IfOk result (λ read. IfSome (R.remaining reader) (λ input. read.items ≡ take (input_limit + 1) input)) }
{
    let mut input = Vec::new(heap);
    reader.take(INPUT_LIMIT as u64 + 1).read_to_end(&mut input)?;
    Ok(input)
}
