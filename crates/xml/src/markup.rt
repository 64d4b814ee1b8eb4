//! What begins at a place of the input, and where a reader stops.

// What begins at a place.
#[derive(Clone, Copy)]
pub(crate) enum Markup {
    Nothing,
    Text,
    EndTag,
    Comment,
    // `<!` without `--` behind it
    Declaration,
    Instruction,
    StartTag,
    // `<` as the last byte
    Cut,
    // `<` with a byte behind it that begins no markup
    Stray,
}

// Where the reader stops on its way.
#[derive(Clone, Copy)]
pub(crate) enum Stop {
    StartTag,
    EndTag,
    End,
}
