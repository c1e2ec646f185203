//! Attribute uses that give attributes to elements.

ghost use Rattle.std.specs.Prelude.{◌≡◌, ◌<◌, length, IfSome, IfNone, OnOk};
ghost use Rattle.std.specs.List.Sorted.{IsPermutation, IsSortedBy};
ghost use Rattle.xs_names.specs.Names.{local_of};
ghost use Rattle.attr_assess.specs.Order.{space_text};
ghost use Rattle.attr_assess.specs.inside.Uses as inside;

use attr_uses::UseAt;
use std::alloc::AllocError;
use std::cmp::Ordering;
use xs_components::{AttributeId, ValueConstraint};
use xs_names::{NameId, Names};

/// An attribute use whose attribute is added to an element: its name, whose two parts it has too, its place, its declaration,
/// and the value constraint whose text the attribute has.
#[derive(Clone, Copy)]
pub struct AddedUse<'a> {
    pub name: NameId,
    pub space: &'a str,
    pub local: &'a str,
    pub at: UseAt,
    pub attribute: AttributeId,
    pub constraint: &'a ValueConstraint,
}

/// Puts the uses in the order of their names.
pub(crate) fn sort_by_name(added: &mut Vec<AddedUse<'_>>) -> Result<(), AllocError>
    ensures same { IsPermutation added.old.items added.new.items }
    ensures sorted { OnOk result (IsSortedBy inside.is_use_before added.new.items) }
{
    added.sort_by(|a, b| by_name(a, b))
}

// By the name of the namespace, and then by the local part.
fn by_name(a: &AddedUse<'_>, b: &AddedUse<'_>) -> Ordering
    ensures { result ≡ inside.use_order a.now b.now }
{
    a.space.cmp(b.space).then(a.local.cmp(b.local))
}

/// The name of the namespace of a name, empty for the absent one.
pub(crate) fn space_text(names: &Names, name: NameId) -> &str
    requires named { name < length names.now.names }
    ensures { result.now ≡ space_text names.now name }
{
    match names.ns_text(names.ns(name)) {
        Some(space) => space,
        None => "",
    }
}
