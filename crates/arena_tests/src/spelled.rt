//! The numbers of the names in the tests.

ghost use Rattle.std.specs.Prelude.{◌<◌, length, IfSome};

use std::alloc::AllocError;
use tree_rows::Expanded;
use xs_names::{NameId, Names, NsId, Text};

const NAMESPACES: [&str; 4] = ["", "u", "v", "w"];

const LOCAL_PARTS: [&str; 6] = ["a", "b", "c", "d", "e", "f"];

/// The numbers of the namespaces in all documents of the tests.
#[derive(Clone, Copy)]
pub struct Spaces {
    u: NsId,
    v: NsId,
    w: NsId,
}

impl Spaces {
    /// Numbers the namespaces and the names.
    pub fn number_all(names: &mut Names) -> Result<Self, AllocError> {
        for space in &NAMESPACES {
            number_locals(names, space)?;
        }
        let u = names.namespace_id("u")?;
        let v = names.namespace_id("v")?;
        let w = names.namespace_id("w")?;
        Ok(Spaces { u, v, w })
    }

    fn number(&self, space: &str) -> NsId {
        if space == "u" {
            self.u
        } else if space == "v" {
            self.v
        } else if space == "w" {
            self.w
        } else {
            NsId::ABSENT
        }
    }

    /// The number of an expanded name.
    pub fn expanded(&self, names: &Names, name: &Expanded) -> Option<NameId>
        ensures { IfSome result (λ n. n < length names.now.names) }
    {
        names.lookup(
            self.number(space_text(&name.namespace)),
            name.local.as_str(),
        )
    }
}

fn number_locals(names: &mut Names, space: &str) -> Result<(), AllocError> {
    for local in &LOCAL_PARTS {
        let space = names.namespace_id(space)?;
        names.intern(space, local)?;
    }
    Ok(())
}

fn space_text(space: &Option<Text>) -> &str {
    match space {
        None => "",
        Some(name) => name.as_str(),
    }
}
