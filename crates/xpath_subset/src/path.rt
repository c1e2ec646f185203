ghost use Rattle.std.specs.Prelude.{◌≡◌, ℕ, ◌<◌, ◌↔◌, All, Option, length, map, IsTrue};
ghost use Rattle.std.specs.Option.{IfSome, MatchOption, option_map};
ghost use Rattle.xpath_subset.specs.Reaches.{expanded_name, Admits, LeadsDown, AdmitsAttribute, Reaches, IsReached};
ghost use Rattle.xpath_subset.specs.inside.Steps.{LeadsNowhere, GoesOn, child_count};

use xs_lists::Listed;
use xs_names::{NameId, Names, NsId, Text};

/// A test of a name (Structures 3.11.6).
#[derive(Drop)]
pub enum NameTest {
    /// `*`: any name.
    Any,
    /// `prefix:*`: the names of a namespace.
    Namespace(NsId),
    /// A QName: the name with this namespace and this local part. Without a prefix it has no namespace.
    Name(NsId, Text),
}

/// A step from an element (Structures 3.11.6).
#[derive(Drop)]
pub enum Step {
    /// `.`: the element itself.
    Itself,
    /// A name test, also after `child::`: the child elements whose name it admits.
    Child(NameTest),
}

/// A path from an element to elements or attributes (Structures 3.11.6).
pub struct Path {
    /// Whether `.//` comes first, so that the steps begin at the element and at each element below it.
    pub anywhere: bool,
    /// The steps from element to element.
    pub steps: Listed<Step>,
    /// The test of an attribute, where the last step is one of `@` or `attribute::`.
    pub attribute: Option<NameTest>,
}

/// The paths that `|` joins: what any of them reaches is reached.
pub type Paths = Listed<Path>;

impl NameTest {
    /// Whether the test admits a name of `names`.
    pub fn admits(&self, names: &Names, name: NameId) -> bool
        requires { name < length names.now.names }
        ensures { IsTrue result ↔ Admits self.now (expanded_name names.now name) }
    {
        match self {
            NameTest::Any => true,
            NameTest::Namespace(ns) => names.ns(name) == *ns,
            NameTest::Name(ns, local) => names.ns(name) == *ns
                && names.local(name) == local.as_str(),
        }
    }
}

// How many of the steps go to a child.
fn count_children(steps: &[Step]) -> usize
    ensures { result ≡ child_count steps.now }
{
    steps
        .iter()
        .filter(|step| matches!(step, Step::Child(_)))
        .count()
}

// The names that are left after a step down along elements of these names; `None` where it leads nowhere.
fn after_step<'a>(step: &Step, names: &Names, elements: &'a [NameId]) -> Option<&'a [NameId]>
    requires { All (λ name. name < length names.now.names) elements.now }
    ensures left { MatchOption result (LeadsNowhere step.now (map (expanded_name names.now) elements.now))
        (λ rest. GoesOn step.now (map (expanded_name names.now) elements.now) (map (expanded_name names.now) rest.now)) }
    ensures within { IfSome result (λ rest. All (λ name. name < length names.now.names) rest.now) }
{
    match step {
        Step::Itself => Some(elements),
        Step::Child(test) => {
            let (first, rest) = elements.split_first()?;
            if test.admits(names, *first) {
                Some(rest)
            } else {
                None
            }
        }
    }
}

// Whether the steps lead from an element down along the elements of these names.
fn leads_down(steps: &[Step], names: &Names, elements: &[NameId]) -> bool
    requires { All (λ name. name < length names.now.names) elements.now }
    ensures { IsTrue result ↔ LeadsDown steps.now (map (expanded_name names.now) elements.now) }
{
    let mut rest = elements;
    for step in steps {
        let Some(left) = after_step(step, names, rest) else {
            return false;
        };
        rest = left;
    }
    rest.is_empty()
}

impl Path {
    // Whether an attribute of this name, or no attribute, is what the path asks for.
    fn admits_attribute(&self, names: &Names, attribute: Option<NameId>) -> bool
        requires { IfSome attribute (λ name. name < length names.now.names) }
        ensures { IsTrue result ↔ AdmitsAttribute self.now.attribute (option_map (expanded_name names.now) attribute) }
    {
        match (&self.attribute, attribute) {
            (None, None) => true,
            (Some(test), Some(name)) => test.admits(names, name),
            _ => false,
        }
    }

    /// Whether the path leads from an element down to a node: along the elements of these names, the last of them the node
    /// itself or the one that has the attribute of the given name. Without elements the node is the element itself, or one
    /// of its attributes.
    pub fn reaches(&self, names: &Names, elements: &[NameId], attribute: Option<NameId>) -> bool
        requires elements { All (λ name. name < length names.now.names) elements.now }
        requires attribute { IfSome attribute (λ name. name < length names.now.names) }
        ensures { IsTrue result ↔ Reaches self.now (map (expanded_name names.now) elements.now)
            (option_map (expanded_name names.now) attribute) }
    {
        let admitted = self.admits_attribute(names, attribute);
        let steps = self.steps.as_slice();
        if !self.anywhere {
            return admitted && leads_down(steps, names, elements);
        }
        match elements.len().checked_sub(count_children(steps)) {
            None => false,
            Some(skipped) => admitted && leads_down(steps, names, &elements[skipped..]),
        }
    }
}

/// Whether one of the paths leads from an element down to a node, as in `Path::reaches`.
pub fn is_reached(
    paths: &Paths,
    names: &Names,
    elements: &[NameId],
    attribute: Option<NameId>,
) -> bool
    requires elements { All (λ name. name < length names.now.names) elements.now }
    requires attribute { IfSome attribute (λ name. name < length names.now.names) }
    ensures { IsTrue result ↔ IsReached paths.now (map (expanded_name names.now) elements.now)
        (option_map (expanded_name names.now) attribute) }
{
    paths
        .as_slice()
        .iter()
        .any(|path| path.reaches(names, elements, attribute))
}

impl Drop for Path {
    fn drop(self) {
        let Path {
            anywhere: _,
            steps,
            attribute,
        } = self;
        drop(steps);
        drop(attribute);
    }
}
