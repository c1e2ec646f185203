ghost use Rattle.std.specs.Prelude.{◌≡◌, ◌||◌, ◌<◌, [], Some, length, IfOk};
ghost use Rattle.std.specs.List.{list_any};
ghost use Rattle.tree_rows.specs.declared.limits.TheConstants.{MAX_ATTRIBUTES as most};
ghost use Rattle.tag_names.specs.Faults as faults;
ghost use Rattle.tag_names.specs.Resolving as resolving;
ghost use Rattle.tag_names.specs.Scopes as scopes;
ghost use Rattle.tag_names.specs.Tags as tags;

use crate::doubles::{repeats_name, repeats_prefix};
use crate::judged::{is_unbound, is_xmlns, judged_attribute, judged_element};
use crate::lines::KeptLines;
use crate::named::{bindings_in, judged_lines};
use crate::parts::parts_of;
use crate::{AttributeLine, NameReason, Named, PackedLines, Prefixes, Tag, TagFaults};
use std::alloc::{AllocError, Global};
use tree_rows::{Attribute, Attributes, Binding, Bindings, Expanded, MAX_ATTRIBUTES};
use xs_names::{Text, TextPool, XML_NAMESPACE, XMLNS_NAMESPACE};

/// What a tag says of its element, and what stands against its names.
#[derive(Drop)]
pub struct JudgedTag {
    pub named: Named,
    pub faults: TagFaults,
}

/// The bindings of a tag, and what stands against its names.
#[derive(Drop)]
pub struct TestedTag {
    pub bindings: Bindings,
    pub faults: TagFaults,
}

/// Whether a binding of this prefix to this namespace is reserved.
fn is_reserved(prefix: &str, namespace: &str) -> bool
    ensures { result ≡ faults.is_reserved (record { prefix = prefix.now; namespace = namespace.now }) }
{
    if prefix == "xmlns" {
        return true;
    }
    if prefix == "xml" {
        return namespace != XML_NAMESPACE;
    }
    (namespace == XML_NAMESPACE || namespace == XMLNS_NAMESPACE)
        || (namespace.is_empty() && !prefix.is_empty())
}

/// Whether a binding is reserved.
fn binds_reserved(binding: &Binding) -> bool
    ensures { result ≡ faults.is_reserved binding.now }
{
    is_reserved(binding.prefix.as_str(), binding.namespace.as_str())
}

/// Whether some binding is reserved.
fn any_reserved(bindings: &[Binding]) -> bool
    ensures { result ≡ list_any faults.is_reserved bindings.now }
{
    bindings.iter().any(|binding| binds_reserved(binding))
}

/// Whether two bindings have one prefix, or two attributes one expanded name.
fn has_double(
    alloc: Global,
    bindings: &[Binding],
    attributes: &[Attribute],
) -> Result<bool, AllocError>
    ensures { IfOk result (λ double. double ≡ (faults.repeats_prefix bindings.now || faults.repeats_name attributes.now)) }
{
    if repeats_prefix(alloc, bindings)? {
        return Ok(true);
    }
    repeats_name(alloc, attributes)
}

/// The bindings of a tag as a scope, if it has any.
fn own_scope(alloc: Global, bindings: &[Binding]) -> Result<Option<Prefixes>, AllocError>
    ensures { IfOk result (λ own. scopes.own_of own ≡ bindings.now) }
{
    if bindings.is_empty() {
        return Ok(None);
    }
    Ok(Some(Prefixes::of_bindings(alloc, bindings)?))
}

/// What a tag of this name that has no lines says of its element, and what stands against its name.
fn judged_alone(
    alloc: Global,
    scope: &Prefixes,
    pool: &mut TextPool,
    name: &Text,
) -> Result<JudgedTag, AllocError>
    ensures { IfOk result (λ judged. judged ≡ resolving.judged scope.now (record { name = name.now; attributes = [] })) }
{
    let element = judged_element(None, scope, pool, name)?;
    Ok(JudgedTag {
        named: Named {
            name: element.name,
            bindings: Bindings::new(alloc),
            attributes: Attributes::new(alloc),
        },
        faults: TagFaults {
            bad: element.bad,
            reserved: element.reserved,
            unbound: element.unbound,
            double: false,
            many: false,
        },
    })
}

/// What a tag of this name and of these lines says of its element, and what stands against its names.
fn judged_with(
    alloc: Global,
    scope: &Prefixes,
    pool: &mut TextPool,
    name: &Text,
    lines: &[AttributeLine],
) -> Result<JudgedTag, AllocError>
    ensures { IfOk result (λ judged. judged ≡ resolving.judged scope.now (record { name = name.now; attributes = lines.now })) }
{
    if lines.is_empty() {
        return judged_alone(alloc, scope, pool, name);
    }
    let bindings = bindings_in(alloc, pool, lines)?;
    let own = own_scope(alloc, bindings.as_slice())?;
    let own = own.as_ref();
    let element = judged_element(own, scope, pool, name)?;
    let judged = judged_lines(alloc, own, scope, pool, lines)?;
    let double = has_double(alloc, bindings.as_slice(), judged.attributes.as_slice())?;
    let faults = TagFaults {
        bad: element.bad || judged.bad,
        reserved: element.reserved || any_reserved(bindings.as_slice()),
        unbound: element.unbound || judged.unbound,
        double,
        many: lines.len() > MAX_ATTRIBUTES,
    };
    Ok(JudgedTag {
        named: Named {
            name: element.name,
            bindings,
            attributes: judged.attributes,
        },
        faults,
    })
}

/// The bindings of a tag of this name and of these lines, and what stands against its names. No attributes are made.
fn tested_with(
    alloc: Global,
    scope: &Prefixes,
    name: &str,
    lines: &PackedLines,
) -> Result<TestedTag, AllocError>
    ensures bindings { IfOk result (λ tested. tested.bindings ≡ tags.bindings_in lines.now) }
    ensures faults { IfOk result (λ tested. tested.faults ≡ resolving.faults_of scope.now (record { name = name.now; attributes = lines.now })) }
{
    let mut pool = TextPool::new(alloc);
    let bindings = lines.bindings(&mut pool)?;
    let own = own_scope(alloc, bindings.as_slice())?;
    let own = own.as_ref();
    let element = parts_of(name);
    let found = lines.faults(own, scope)?;
    let double = repeats_prefix(alloc, bindings.as_slice())?;
    let faults = TagFaults {
        bad: element.bad || found.bad,
        reserved: is_xmlns(element.prefix) || any_reserved(bindings.as_slice()),
        unbound: is_unbound(own, scope, element.prefix) || found.unbound,
        double: double || found.double,
        many: lines.len() > MAX_ATTRIBUTES,
    };
    Ok(TestedTag { bindings, faults })
}

impl Tag {
    /// What the tag says of its element, where it stands in this scope, and what stands against its names. Each name is
    /// read once. Namespaces are shared with their bindings, values with the lines, and other texts come from the pool.
    pub fn judge(
        &self,
        alloc: Global,
        scope: &Prefixes,
        pool: &mut TextPool,
    ) -> Result<JudgedTag, AllocError>
        ensures { IfOk result (λ judged. judged ≡ resolving.judged scope.now self.now) }
    {
        let name = &self.name;
        match self.attributes.kept() {
            KeptLines::Few(lines) => judged_with(alloc, scope, pool, name, lines.as_slice()),
            KeptLines::Many(packed) => {
                let lines = packed.unpacked()?;
                judged_with(alloc, scope, pool, name, lines.as_slice())
            }
        }
    }

    /// The bindings of the tag, and what stands against its names, where it stands in this scope. Of more lines than an
    /// element may have no attributes are made.
    pub fn tested(
        &self,
        alloc: Global,
        scope: &Prefixes,
        pool: &mut TextPool,
    ) -> Result<TestedTag, AllocError>
        ensures bindings { IfOk result (λ tested. tested.bindings ≡ tags.bindings_in self.now.attributes) }
        ensures faults { IfOk result (λ tested. tested.faults ≡ resolving.faults_of scope.now self.now) }
    {
        let name = &self.name;
        match self.attributes.kept() {
            KeptLines::Few(lines) => {
                let JudgedTag { named, faults } = judged_with(
                    alloc,
                    scope,
                    pool,
                    name,
                    lines.as_slice(),
                )?;
                Ok(TestedTag {
                    bindings: named.bindings,
                    faults,
                })
            }
            KeptLines::Many(packed) => tested_with(alloc, scope, name.as_str(), packed),
        }
    }

    /// The first reason why the names of a tag of too many lines are refused, where it stands in this scope.
    fn refusal(
        &self,
        alloc: Global,
        scope: &Prefixes,
        pool: &mut TextPool,
    ) -> Result<NameReason, AllocError>
        requires { most < length self.now.attributes }
        ensures { IfOk result (λ reason. faults.name_fault scope.now self.now ≡ Some reason) }
    {
        let tested = self.tested(alloc, scope, pool)?;
        match tested.faults.first() {
            Some(reason) => Ok(reason),
            None => Ok(NameReason::TooManyAttributes),
        }
    }

    /// What the tag says of its element, where it stands in this scope, or the first reason why its names are refused.
    ///
    /// # Errors
    ///
    /// `AllocError` is want of memory; a `NameReason` is the tag's.
    pub fn resolve(
        &self,
        alloc: Global,
        scope: &Prefixes,
        pool: &mut TextPool,
    ) -> Result<Result<Named, NameReason>, AllocError>
        ensures { IfOk result (λ end. end ≡ resolving.resolved scope.now self.now) }
    {
        if self.attributes.len() > MAX_ATTRIBUTES {
            return Ok(Err(self.refusal(alloc, scope, pool)?));
        }
        let JudgedTag { named, faults } = self.judge(alloc, scope, pool)?;
        match faults.first() {
            None => Ok(Ok(named)),
            Some(reason) => Ok(Err(reason)),
        }
    }
}

impl Prefixes {
    /// The expanded name that a QName is as the name of an element in this scope: without a prefix it is in the default
    /// namespace (Namespaces in XML 1.0, 6.2).
    ///
    /// # Errors
    ///
    /// `AllocError` is want of memory. The reasons are `BadName`, `UnboundPrefix`, and `ReservedName` where the prefix
    /// is `xmlns`, in this order.
    pub fn element_name(
        &self,
        pool: &mut TextPool,
        name: &str,
    ) -> Result<Result<Expanded, NameReason>, AllocError>
        ensures { IfOk result (λ end. end ≡ resolving.element_resolved self.now name.now) }
    {
        let name = pool.text(name)?;
        let judged = judged_element(None, self, pool, &name)?;
        Ok(judged.end())
    }

    /// The expanded name that a QName is as the name of an attribute in this scope: without a prefix it is in no
    /// namespace (Namespaces in XML 1.0, 6.2).
    ///
    /// # Errors
    ///
    /// `AllocError` is want of memory. The reasons are `BadName`, `UnboundPrefix`, and `ReservedName` where an attribute
    /// of this name is a binding, in this order.
    pub fn attribute_name(
        &self,
        pool: &mut TextPool,
        name: &str,
    ) -> Result<Result<Expanded, NameReason>, AllocError>
        ensures { IfOk result (λ end. end ≡ resolving.attribute_resolved self.now name.now) }
    {
        let name = pool.text(name)?;
        let judged = judged_attribute(None, self, pool, &name)?;
        Ok(judged.end())
    }
}
