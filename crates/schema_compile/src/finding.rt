//! What is found of the components of a set, for content models and for assessing.

ghost use Rattle.std.specs.Prelude.{◌≡◌, IfOk};
ghost use Rattle.component_tables.specs.ContentTypes.{AreContentsOf};
ghost use Rattle.component_tables.specs.Types.{AreDeclarationsOf};
ghost use Rattle.element_declarations.specs.Classes.{AreClassesOf};
ghost use Rattle.schema_compile.specs.Fit.{IsFit};
ghost use Rattle.schema_compile.specs.inside.Finding as spec;

use attr_uses::AttrTables;
use component_tables::{ComponentNames, ContentTypes, Declarations};
use derive_faults::id_marks;
use element_declarations::{classes_of, groups};
use schema_check::CompiledSet;
use schema_models::Models;
use std::alloc::{AllocError, Global};
use xpath_subset::IdentityPaths;
use xs_components::Members;

/// What is found of the components of a set.
#[derive(Drop)]
pub(crate) struct Found {
    pub(crate) declarations: Declarations,
    pub(crate) members: Members,
    pub(crate) classes: Vec<u32>,
    pub(crate) named: ComponentNames,
    pub(crate) attr_uses: AttrTables,
    pub(crate) contents: ContentTypes,
}

/// What is found of a set without a fault: that, with the automata of its content models and the paths of its identity constraints.
#[derive(Drop)]
pub(crate) struct Faultless {
    pub(crate) found: Found,
    pub(crate) models: Models,
    pub(crate) identities: Vec<IdentityPaths>,
}

// The attribute uses of complex types and attribute groups.
fn find_uses(alloc: Global, set: &CompiledSet) -> Result<AttrTables, AllocError>
    requires fit { IsFit set.now }
    ensures uses { IfOk result (spec.AreAttrUses set.now.parts) }
{
    let ids = id_marks(alloc, &set.parts)?;
    AttrTables::of(alloc, &set.parts, ids.as_slice())
}

// The classes of element declarations.
fn find_classes(
    alloc: Global,
    set: &mut CompiledSet,
    declarations: &Declarations,
    contents: &ContentTypes,
) -> Result<Vec<u32>, AllocError>
    requires fit { IsFit set.old }
    requires declarations { AreDeclarationsOf set.old.parts declarations.now }
    requires contents { AreContentsOf set.old.parts contents.now }
    ensures classes { IfOk result (λ classes. AreClassesOf set.old.parts classes.items) }
    ensures same { set.new ≡ set.old }
{
    classes_of(alloc, &set.parts, declarations, contents, &mut set.types)
}

/// Finds it.
pub(crate) fn find(alloc: Global, set: &mut CompiledSet) -> Result<Found, AllocError>
    requires fit { IsFit set.old }
    ensures found { IfOk result (spec.IsFound set.old.parts) }
    ensures same { set.new ≡ set.old }
{
    let declarations = Declarations::of(alloc, &set.parts)?;
    let members = groups(alloc, &set.parts, &declarations)?;
    let named = ComponentNames::of(alloc, &set.parts)?;
    let attr_uses = find_uses(alloc, set)?;
    let contents = ContentTypes::of(alloc, &set.parts)?;
    let classes = find_classes(alloc, set, &declarations, &contents)?;
    Ok(Found {
        declarations,
        members,
        classes,
        named,
        attr_uses,
        contents,
    })
}

/// The particle of each content of a set is there: a law.
pub(crate) fn contents_are_there(set: &CompiledSet)
    requires fit { IsFit set.now }
    ensures there { spec.AreContentsThere set.now.parts }
{
    let _contents = set.parts.contents();
}
