//! Namespace constraints of wildcards, as sets of namespaces.
#![tactic(auto)]

mod attr_group;
mod attribute;
mod common;
mod complex;
mod components;
mod constraint;
mod element;
mod group;
mod members;
mod namespace_constraint;
mod particle;
mod simple;
mod table;

pub use attr_group::{AttrGroupDef, AttrGroupId, AttrGroupIdList};
pub use attribute::{AttrUse, AttrUseList, AttributeDecl, AttributeId};
pub use common::{
    Methods, NameIdList, Place, Process, Rules, TypeId, TypeIdList, ValueConstraint, Wildcard,
};
pub use complex::{ComplexId, ComplexType, ContentForm};
pub use components::Components;
pub use constraint::{
    Constraint, ConstraintId, ConstraintIdList, ConstraintKind, PathText, PathTextList,
};
pub use element::{ElementDecl, ElementId};
pub use group::{GroupDef, GroupId};
pub use members::Members;
pub use namespace_constraint::{NsConstraint, NsIdList};
pub use particle::{Particle, ParticleId, ParticleIdList, Term, TermId};
pub use simple::{FacetItem, FacetKind, FacetStep, SimpleForm, SimpleId, SimpleType};
