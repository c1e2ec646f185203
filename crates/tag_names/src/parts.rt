ghost use Rattle.std.specs.Prelude.{◌≡◌, IsNone};
ghost use Rattle.std.specs.Option.{option_copied};
ghost use Rattle.tag_names.specs.Faults as faults;
ghost use Rattle.tag_names.specs.Resolving.{binds};
ghost use Rattle.tag_names.specs.Tags as tags;

use crate::AttributeLine;
use xs_names::split_qname;

/// The prefix and the local part of a name as it is written. A name that is no QName has no prefix, and is all local part.
#[derive(Clone, Copy)]
pub(crate) struct NameParts<'a> {
    pub(crate) prefix: Option<&'a str>,
    pub(crate) local: &'a str,
    /// Whether it is no QName.
    pub(crate) bad: bool,
}

/// The parts of a name.
pub(crate) fn parts_of(name: &str) -> NameParts<'_>
    ensures prefix { option_copied result.prefix ≡ tags.prefix_of name.now }
    ensures local { result.local.now ≡ tags.local_of name.now }
    ensures whole { IsNone result.prefix → result.local.now ≡ name.now }
    ensures bad { result.bad ≡ faults.is_no_qname name.now }
{
    match split_qname(name) {
        Ok((prefix, local)) => NameParts {
            prefix,
            local,
            bad: false,
        },
        Err(_) => NameParts {
            prefix: None,
            local: name,
            bad: true,
        },
    }
}

/// Whether a name is no QName.
pub(crate) fn is_no_qname(name: &str) -> bool
    ensures { result ≡ faults.is_no_qname name.now }
{
    match split_qname(name) {
        Ok(_) => false,
        Err(_) => true,
    }
}

/// Whether an attribute of this name is a binding.
pub(crate) fn binds(name: &str) -> bool
    ensures { result ≡ binds name.now }
{
    name == "xmlns" || name.starts_with("xmlns:")
}

/// The prefix that an attribute binds, empty for the default namespace; `None` where it is no binding.
pub(crate) fn bound_prefix(line: &AttributeLine) -> Option<&str>
    ensures { option_copied result ≡ tags.bound_prefix line.now }
{
    let name = line.name.as_str();
    if name == "xmlns" {
        return Some("");
    }
    name.strip_prefix("xmlns:")
}
