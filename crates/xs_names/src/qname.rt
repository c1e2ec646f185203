ghost use Rattle.std.specs.Prelude.{◌≡◌, MatchResult, IfOk};
ghost use Rattle.std.specs.Str.{chars};
ghost use Rattle.xs_names.specs.QName.{IsQName, IsNoQName, prefix_of, joined, qname, found_parts};

use crate::is_ncname;

/// The text is no QName.
#[derive(Clone, Copy)]
pub struct BadName;

/// The prefix and the local part of a QName (Namespaces in XML 1.0, productions 7 to 11).
///
/// The prefix is `None` exactly where the text has no colon.
pub fn split_qname(text: &str) -> Result<(Option<&str>, &str), BadName>
    ensures parts { MatchResult result
        (λ parts. IsQName (chars text.now) (prefix_of chars parts.0) (chars parts.1.now))
        (λ _. IsNoQName (chars text.now)) }
    ensures text { IfOk result (λ parts. text.now ≡ joined (prefix_of (λ p. p) parts.0) parts.1.now) }
    ensures value { found_parts result ≡ qname text.now }
{
    match text.split_once(':') {
        None => {
            if is_ncname(text) {
                Ok((None, text))
            } else {
                Err(BadName)
            }
        }
        Some((prefix, local)) => {
            if is_ncname(prefix) && is_ncname(local) {
                Ok((Some(prefix), local))
            } else {
                Err(BadName)
            }
        }
    }
}
