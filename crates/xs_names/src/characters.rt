ghost use Rattle.std.specs.Prelude.{◌≡◌};
ghost use Rattle.std.specs.List.{list_all, list_any};
ghost use Rattle.std.specs.Str.{chars};
ghost use Rattle.xs_names.specs.Characters as names;

fn is_name_start(c: char) -> bool
    ensures { result ≡ names.is_name_start c }
{
    matches!(c, ':' | 'A'..='Z' | '_' | 'a'..='z' | '\u{C0}'..='\u{D6}' | '\u{D8}'..='\u{F6}'
        | '\u{F8}'..='\u{2FF}' | '\u{370}'..='\u{37D}' | '\u{37F}'..='\u{1FFF}'
        | '\u{200C}'..='\u{200D}' | '\u{2070}'..='\u{218F}' | '\u{2C00}'..='\u{2FEF}'
        | '\u{3001}'..='\u{D7FF}' | '\u{F900}'..='\u{FDCF}' | '\u{FDF0}'..='\u{FFFD}'
        | '\u{10000}'..='\u{EFFFF}')
}

fn is_name_char(c: char) -> bool
    ensures { result ≡ names.is_name_char c }
{
    is_name_start(c)
        || matches!(c, '-'..='.' | '0'..='9' | '\u{B7}' | '\u{300}'..='\u{36F}' | '\u{203F}'..='\u{2040}')
}

fn has_name_chars(text: &str) -> bool
    ensures { result ≡ list_all names.is_name_char (chars text.now) }
{
    text.chars().all(is_name_char)
}

fn has_colon(text: &str) -> bool
    ensures { result ≡ list_any names.is_colon (chars text.now) }
{
    text.chars().any(|c| c == ':')
}

/// Whether the text is a Name of XML 1.0 (Fifth Edition, production 5), which may hold colons.
pub fn is_name(text: &str) -> bool
    ensures { result ≡ names.is_name (chars text.now) }
{
    match text.chars().next() {
        None => false,
        Some(first) => is_name_start(first) && has_name_chars(text),
    }
}

/// Whether the text is an Nmtoken of XML 1.0 (Fifth Edition, production 7): one or more characters of names.
pub fn is_nmtoken(text: &str) -> bool
    ensures { result ≡ names.is_nmtoken (chars text.now) }
{
    match text.chars().next() {
        None => false,
        Some(_) => has_name_chars(text),
    }
}

/// Whether the text is an NCName of Namespaces in XML 1.0 (production 4): a Name without a colon.
pub fn is_ncname(text: &str) -> bool
    ensures { result ≡ names.is_ncname (chars text.now) }
{
    is_name(text) && !has_colon(text)
}
