ghost use Rattle.std.specs.Prelude.{◌≡◌, IfOk};
ghost use Rattle.tree_rows.specs.Naming.{same_name, clark_name};
ghost use Rattle.tree_rows.specs.Naming as naming;

use std::alloc::{AllocError, Global};
use xs_names::Text;

/// An expanded name: the name of a namespace, `None` for the absent one, with a local part
/// (Namespaces in XML 1.0, 2.1).
pub struct Expanded {
    pub namespace: Option<Text>,
    pub local: Text,
}

/// Whether two namespaces are the same.
fn is_same_space(one: &Option<Text>, other: &Option<Text>) -> bool
    ensures { result ≡ naming.same_space one.now other.now }
{
    match one {
        None => other.is_none(),
        Some(space) => match other {
            None => false,
            Some(other) => space.as_str() == other.as_str(),
        },
    }
}

/// The name of a namespace once more.
fn clone_space(space: &Option<Text>) -> Result<Option<Text>, AllocError>
    ensures { IfOk result (λ copy. copy ≡ space.now) }
{
    match space {
        None => Ok(None),
        Some(space) => Ok(Some(space.try_clone()?)),
    }
}

impl Expanded {
    /// Whether the names are the same: their namespaces are, and their local parts.
    pub fn is_same(&self, other: &Expanded) -> bool
        ensures { result ≡ same_name self.now other.now }
    {
        is_same_space(&self.namespace, &other.namespace)
            && self.local.as_str() == other.local.as_str()
    }

    /// The same name once more. Its texts are shared, and not copied.
    pub fn try_clone(&self) -> Result<Self, AllocError>
        ensures { IfOk result (λ copy. copy ≡ self.now) }
    {
        Ok(Expanded {
            namespace: clone_space(&self.namespace)?,
            local: self.local.try_clone()?,
        })
    }

    /// The name as one text: `local`, or `{namespace}local` where the namespace is not the absent one.
    pub fn clark_name(&self, alloc: Global) -> Result<Text, AllocError>
        ensures { IfOk result (λ text. text ≡ clark_name self.now) }
    {
        match &self.namespace {
            None => self.local.try_clone(),
            Some(space) => {
                let mut text = String::from_str(alloc, "{")?;
                text.push_str(space.as_str())?;
                text.push_str("}")?;
                text.push_str(self.local.as_str())?;
                Text::from_string(text)
            }
        }
    }
}

impl Drop for Expanded {
    fn drop(self) {
        let Expanded { namespace, local } = self;
        drop(namespace);
        drop(local);
    }
}
