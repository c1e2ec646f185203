ghost use Rattle.std.specs.Prelude.{◌≡◌, ◌∷◌, ◌++◌, List, IfOk, OnOk};
ghost use Rattle.tag_names.specs.Resolving as resolving;
ghost use Rattle.std.specs.Option.{option_copied};
ghost use Rattle.tag_names.specs.Scopes as scopes;
ghost use Rattle.tag_names.specs.Tags as tags;
ghost use Rattle.tag_names.specs.declared.lines.AttributeLine.{AttributeLine};

use crate::judged::{JudgedName, judged_attribute};
use crate::parts::{bound_prefix, is_no_qname};
use crate::{AttributeLine, Prefixes};
use std::alloc::{AllocError, Global};
use tree_rows::{Attribute, Attributes, Binding, Bindings, Expanded};
use xs_names::TextPool;

/// What a tag says of its element.
#[derive(Drop)]
pub struct Named {
    /// The expanded name.
    pub name: Expanded,
    /// The bindings of the tag, in order.
    pub bindings: Bindings,
    /// The attributes that are no bindings, in order.
    pub attributes: Attributes,
}

/// Puts what an attribute binds behind the bindings, if it is a binding.
pub(crate) fn put_binding(
    pool: &mut TextPool,
    bindings: &mut Bindings,
    line: &AttributeLine,
) -> Result<(), AllocError>
    ensures { OnOk result ((more : List AttributeLine) → bindings.new ++ tags.bindings_in more ≡ bindings.old ++ tags.bindings_in (line.now ∷ more)) }
{
    match bound_prefix(line) {
        None => Ok(()),
        Some(prefix) => {
            let prefix = pool.text(prefix)?;
            let namespace = line.value.try_clone()?;
            bindings.push(Binding { prefix, namespace })?;
            Ok(())
        }
    }
}

/// The bindings of a tag, in order.
pub(crate) fn bindings_in(
    alloc: Global,
    pool: &mut TextPool,
    lines: &[AttributeLine],
) -> Result<Bindings, AllocError>
    ensures { IfOk result (λ bindings. bindings ≡ tags.bindings_in lines.now) }
{
    let mut bindings = Bindings::new(alloc);
    for line in lines {
        put_binding(pool, &mut bindings, line)?;
    }
    Ok(bindings)
}

/// The attributes among lines, and what stands against the names of the lines.
#[derive(Drop)]
pub(crate) struct JudgedLines {
    pub(crate) attributes: Attributes,
    /// A name is no QName.
    pub(crate) bad: bool,
    /// The prefix of an attribute is not bound.
    pub(crate) unbound: bool,
}

impl JudgedLines {
    /// Puts an attribute with a judged name behind the others.
    fn put_attribute(&mut self, judged: JudgedName, line: &AttributeLine) -> Result<(), AllocError>
        ensures { OnOk result (self.new ≡ resolving.with_attribute self.old judged line.now.value) }
    {
        let JudgedName {
            name,
            bad,
            unbound,
            ..
        } = judged;
        let value = line.value.try_clone()?;
        self.attributes.push(Attribute { name, value })?;
        self.bad = self.bad || bad;
        self.unbound = self.unbound || unbound;
        Ok(())
    }

    /// Puts a binding behind the others, whose name is no QName or is one.
    fn put_binding(&mut self, bad: bool)
        ensures { self.new ≡ resolving.with_binding self.old bad }
    {
        self.bad = self.bad || bad;
    }

    /// Puts a line behind the others.
    fn put(
        &mut self,
        own: Option<&Prefixes>,
        scope: &Prefixes,
        pool: &mut TextPool,
        line: &AttributeLine,
    ) -> Result<(), AllocError>
        ensures { OnOk result ((more : List AttributeLine) → resolving.lines_with (scopes.own_of (option_copied own.entry) ++ scope.now) self.new more
            ≡ resolving.lines_with (scopes.own_of (option_copied own.entry) ++ scope.now) self.old (line.now ∷ more)) }
    {
        let name = line.name.as_str();
        match bound_prefix(line) {
            Some(_) => {
                self.put_binding(is_no_qname(name));
                Ok(())
            }
            None => {
                let judged = judged_attribute(own, scope, pool, &line.name)?;
                self.put_attribute(judged, line)?;
                Ok(())
            }
        }
    }
}

/// The attributes among the lines of a tag, and what stands against the names of the lines.
pub(crate) fn judged_lines(
    alloc: Global,
    own: Option<&Prefixes>,
    scope: &Prefixes,
    pool: &mut TextPool,
    lines: &[AttributeLine],
) -> Result<JudgedLines, AllocError>
    ensures { IfOk result (λ judged. judged ≡ resolving.judged_lines (scopes.own_of (option_copied own.entry) ++ scope.now) lines.now) }
{
    let attributes = Vec::with_capacity(alloc, lines.len())?;
    let mut judged = JudgedLines {
        attributes: Attributes::from_vec(attributes),
        bad: false,
        unbound: false,
    };
    for line in lines {
        judged.put(own, scope, pool, line)?;
    }
    Ok(judged)
}
