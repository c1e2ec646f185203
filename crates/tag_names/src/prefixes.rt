ghost use Rattle.std.specs.Prelude.{◌≡◌, ◌<◌, ◌∷◌, ◌++◌, [], ◌-◌, ℕ, List, All, drop, length, map, reverse, IsSome, bytes_eq, IfOk, OnOk, OnErr};
ghost use Rattle.std.specs.Option.{option_copied};
ghost use Rattle.std.specs.Map.{update};
ghost use Rattle.std.specs.HashMap.{get_by_text};
ghost use Rattle.tag_names.specs.Scopes as scopes;
ghost use Rattle.tag_names.specs.Tables.{bindings_of};
ghost use Rattle.tree_rows.specs.declared.row.Binding.{Binding};
ghost use Rattle.xs_names.specs.Scope.{prefix_and_space};

use std::alloc::{AllocError, Global};
use std::collections::HashMap;
use std::marker::Model;
use tree_rows::Binding;
use xs_names::{Names, Scope, ScopeBinding, Text, XML_NAMESPACE};

/// A binding once more. Its texts are shared, and not copied.
fn copy_of(binding: &Binding) -> Result<Binding, AllocError>
    ensures { IfOk result (λ copy. copy ≡ binding.now) }
{
    Ok(Binding {
        prefix: binding.prefix.try_clone()?,
        namespace: binding.namespace.try_clone()?,
    })
}

/// So many bindings are gone through for a prefix, since that takes less time than hashing it.
const FEW: usize = 4;

/// Gives the prefix the place of the binding that was hidden, or none.
fn restore(latest: &mut HashMap<String, usize>, prefix: &str, hidden: Option<usize>)
    requires { IsSome (get_by_text latest.old prefix.now) }
    ensures { (other : List ℕ) → get_by_text latest.new other ≡ update bytes_eq (get_by_text latest.old) prefix.now hidden other }
{
    match hidden {
        None => {
            latest.remove(prefix);
        }
        Some(place) => {
            if let Some(shown) = latest.get_mut(prefix) {
                *shown = place;
            }
        }
    }
}

/// A binding, with the place of the binding of the same prefix that it hides.
#[derive(Drop)]
struct Entry {
    binding: Binding,
    hidden: Option<usize>,
}

/// The name of the namespace that the last of these bindings of the prefix gives.
fn latest_among<'a>(entries: &'a [Entry], prefix: &str) -> Option<&'a Text>
    ensures { option_copied result ≡ scopes.of_prefix (bindings_of (reverse entries.now)) prefix.now }
{
    let mut left = entries;
    'left: while let Some((last, before)) = left.split_last() {
        if last.binding.prefix.as_str() == prefix {
            return Some(&last.binding.namespace);
        }
        left = before;
    }
    None
}

/// The prefixes in scope. Contracts see the bindings, the latest first.
///
/// The empty prefix stands for the default namespace. Before an element's bindings `len` tells where its scope began, and
/// after the element `truncate` goes back there. A prefix is looked up in a time that does not grow with the bindings
/// (expected, by hashing).
pub struct Prefixes {
    alloc: Global,
    /// The bindings in the order of coming.
    entries: Vec<Entry>,
    /// The place of the latest binding of each prefix that is bound.
    latest: HashMap<String, usize>,
}

impl Model for Prefixes {
    ghost use Rattle.std.specs.Prelude.{List};
    ghost use Rattle.tree_rows.specs.declared.row.Binding.{Binding};

    ghost Value = { List Binding };

    ghost use Rattle.std.specs.Prelude.{reverse};
    ghost use Rattle.tag_names.specs.Tables.{bindings_of, IsTable};

    ghost view = { λ p. bindings_of (reverse p.entries.items) };

    ghost invariant = { λ p. IsTable (reverse p.entries.items) p.latest };
}

/// A scope of copies of these bindings, the last of which is the latest.
fn bound_copies(alloc: Global, entries: &[Entry]) -> Result<Prefixes, AllocError>
    ensures { IfOk result (λ copy. copy ≡ bindings_of (reverse entries.now)) }
{
    let mut copy = Prefixes::empty(alloc);
    for entry in entries {
        copy.bind(copy_of(&entry.binding)?)?;
    }
    Ok(copy)
}

/// A binding by the name of its namespace.
fn binding_by_name(
    alloc: Global,
    names: &Names,
    bound: &ScopeBinding,
) -> Result<Binding, AllocError>
    requires { bound.now.ns < length names.now.spaces }
    ensures { IfOk result (λ binding. binding ≡ scopes.binding_in names.now (prefix_and_space bound.now)) }
{
    let namespace = match names.ns_text(bound.ns) {
        None => Text::new(alloc, "")?,
        Some(name) => Text::new(alloc, name)?,
    };
    Ok(Binding {
        prefix: bound.prefix.try_clone()?,
        namespace,
    })
}

/// A scope of these bindings, the last of which is the latest.
fn bound_by_name(
    alloc: Global,
    names: &Names,
    bindings: &[ScopeBinding],
) -> Result<Prefixes, AllocError>
    requires { All (λ bound. bound.ns < length names.now.spaces) bindings.now }
    ensures { IfOk result (λ scope. scope ≡ map (λ bound. scopes.binding_in names.now (prefix_and_space bound)) (reverse bindings.now)) }
{
    let mut scope = Prefixes::empty(alloc);
    for bound in bindings {
        scope.bind(binding_by_name(alloc, names, bound)?)?;
    }
    Ok(scope)
}

impl Prefixes {
    /// No bindings.
    pub(crate) fn empty(alloc: Global) -> Self
        ensures { result ≡ [] }
    {
        Prefixes {
            alloc,
            entries: Vec::new(alloc),
            latest: HashMap::new(alloc),
        }
    }

    /// These bindings alone. An earlier one hides a later one.
    pub(crate) fn of_bindings(alloc: Global, bindings: &[Binding]) -> Result<Self, AllocError>
        ensures { IfOk result (λ own. own ≡ bindings.now) }
    {
        let mut own = Prefixes::empty(alloc);
        own.bind_all(bindings)?;
        Ok(own)
    }

    /// The scope outside of all elements, which binds the prefix `xml` alone.
    pub fn new(alloc: Global) -> Result<Self, AllocError>
        ensures { IfOk result (λ scope. scope ≡ scopes.first_scope) }
    {
        let mut scope = Prefixes::empty(alloc);
        scope.bind(Binding {
            prefix: Text::new(alloc, "xml")?,
            namespace: Text::new(alloc, XML_NAMESPACE)?,
        })?;
        Ok(scope)
    }

    /// The bindings of a scope of numbered namespaces, by their names.
    pub fn of_scope(alloc: Global, names: &Names, scope: &Scope) -> Result<Self, AllocError>
        requires { All (λ bound. bound.1 < length names.now.spaces) scope.now }
        ensures { IfOk result (λ prefixes. prefixes ≡ map (scopes.binding_in names.now) scope.now) }
    {
        let bindings = scope.to_bindings()?;
        bound_by_name(alloc, names, bindings.as_slice())
    }

    /// Binds a prefix, or the default namespace. Earlier bindings of it are hidden.
    pub fn bind(&mut self, binding: Binding) -> Result<(), AllocError>
        ensures ok { OnOk result (self.new ≡ binding ∷ self.old) }
        ensures err { OnErr result (self.new ≡ self.old) }
    {
        let prefix = String::from_str(self.alloc, binding.prefix.as_str())?;
        let hidden = self.latest.get(binding.prefix.as_str()).copied();
        let place = self.entries.len();
        self.entries.push(Entry { binding, hidden })?;
        match self.latest.insert(prefix, place) {
            Ok(_) => Ok(()),
            Err(_) => {
                self.entries.pop();
                Err(AllocError)
            }
        }
    }

    /// Binds copies of bindings, the first one last. Where memory is wanting, some of them may stay bound.
    fn bind_copies(&mut self, bindings: &[Binding]) -> Result<(), AllocError>
        ensures ok { OnOk result (self.new ≡ bindings.now ++ self.old) }
        ensures err { OnErr result ((more : List Binding) × (self.new ≡ more ++ self.old)) }
    {
        let mut left = bindings;
        'left: while let Some((last, before)) = left.split_last() {
            let copy = copy_of(last)?;
            self.bind(copy)?;
            left = before;
        }
        Ok(())
    }

    /// Binds copies of all bindings of a tag. Earlier bindings of their prefixes are hidden.
    pub fn bind_all(&mut self, bindings: &[Binding]) -> Result<(), AllocError>
        ensures ok { OnOk result (self.new ≡ bindings.now ++ self.old) }
        ensures err { OnErr result (self.new ≡ self.old) }
    {
        let mark = self.len();
        match self.bind_copies(bindings) {
            Ok(()) => Ok(()),
            Err(AllocError) => {
                self.truncate(mark);
                Err(AllocError)
            }
        }
    }

    /// The name of the namespace that the latest binding of the prefix gives.
    pub fn of_prefix(&self, prefix: &str) -> Option<&Text>
        ensures { option_copied result ≡ scopes.of_prefix self.now prefix.now }
    {
        if self.entries.len() <= FEW {
            return latest_among(self.entries.as_slice(), prefix);
        }
        match self.latest.get(prefix) {
            None => None,
            Some(place) => Some(&self.entries[*place].binding.namespace),
        }
    }

    /// The number of bindings.
    pub fn len(&self) -> usize
        ensures { result ≡ length self.now }
    {
        self.entries.len()
    }

    /// Takes the latest binding away, and shows the one that it hides.
    fn unbind(&mut self)
        ensures { self.new ≡ drop 1 self.old }
    {
        if let Some(Entry { binding, hidden }) = self.entries.pop() {
            restore(&mut self.latest, binding.prefix.as_str(), hidden);
        }
    }

    /// Goes back to the scope of the first `len` bindings.
    pub fn truncate(&mut self, len: usize)
        ensures { self.new ≡ drop (length self.old - len) self.old }
    {
        'bindings: while self.len() > len {
            self.unbind();
        }
    }

    /// A copy with memory of its own.
    pub fn try_clone(&self, alloc: Global) -> Result<Self, AllocError>
        ensures { IfOk result (λ copy. copy ≡ self.now) }
    {
        bound_copies(alloc, self.entries.as_slice())
    }
}

impl Drop for Prefixes {
    fn drop(self) {
        let Prefixes {
            alloc: _,
            entries,
            latest,
        } = self;
        drop(entries);
        drop(latest);
    }
}
