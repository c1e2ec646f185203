use attr_assess::KnownUses;
use attr_uses::AttrTables;
use component_tables::{ComponentNames, ContentTypes, Declarations};
use schema_models::Models;
use simple_types::SimpleTypes;
use xpath_subset::IdentityPaths;
use xs_components::{Components, Members};
use xs_names::Names;

/// A compiled schema set.
pub struct Compiled {
    /// The names that stand in its documents, and those of documents that are assessed.
    pub names: Names,
    /// Its components, with ranks by which each reference goes lower, and with the particles of contents.
    pub parts: Components,
    /// Its simple types, and the simple contents of its complex types.
    pub types: SimpleTypes,
    /// The members of its substitution groups (Structures 3.3.6).
    pub members: Members,
    /// The classes of its element declarations, by their numbers: those with the same properties have one.
    pub classes: Vec<u32>,
    /// The types of its element declarations, and those at the top of documents.
    pub declarations: Declarations,
    /// The types and attribute declarations at the top of documents, by their names.
    pub named: ComponentNames,
    /// The attribute uses and the attribute wildcards of its complex types and attribute groups (Structures 3.4.2, 3.6.2).
    pub attr_uses: AttrTables,
    /// What the attribute uses in its components add to elements.
    pub known_uses: KnownUses,
    /// The content types of its complex types (Structures 3.4.1).
    pub contents: ContentTypes,
    /// The automata of the content models of its complex types.
    pub models: Models,
    /// The paths of its identity constraints, by their numbers (Structures 3.11.1).
    pub identities: Vec<IdentityPaths>,
}

impl Drop for Compiled {
    fn drop(self) {
        let Compiled {
            names,
            parts,
            types,
            members,
            classes,
            declarations,
            named,
            attr_uses,
            known_uses,
            contents,
            models,
            identities,
        } = self;
        drop(names);
        drop(parts);
        drop(types);
        drop(members);
        drop(classes);
        drop(declarations);
        drop(named);
        drop(attr_uses);
        drop(known_uses);
        drop(contents);
        drop(models);
        drop(identities);
    }
}
