ghost use Rattle.std.specs.Prelude.{◌≡◌};
ghost use Rattle.xs_names.specs.White.{is_white};

/// Whether the text is white space: spaces, tabs, line feeds and carriage returns alone.
pub fn is_white_space(text: &str) -> bool
    ensures { result ≡ is_white text.now }
{
    text.as_bytes().iter().all(|b| *b == b' ' || *b == b'\t' || (*b == b'\n' || *b == b'\r'))
}
