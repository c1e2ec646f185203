//! The parts of forms, node by node.

ghost use Rattle.std.specs.Prelude.{◌≡◌, ◌<◌, ◌≤◌, true, Some, [], map, length, All, slice_index_or, IfSome, IfOk, OnOk, MatchOption};
ghost use Rattle.particle_models.specs.Nodes.{model_in, IsOrdered};
ghost use Rattle.particle_models.specs.Asked.{AreAsked};
ghost use Rattle.particle_models.specs.Trees.{none, member, joined};
ghost use Rattle.particle_models.specs.Pointless.{formed, is_once, unless_pointless, members_by, leaves, term_form};
ghost use Rattle.particle_models.specs.Parts.{tree_in, form_in, trees_from, tree_of, members_at, MembersBelow};
ghost use Rattle.particle_models.specs.Forming.{AreOrdered, Extends, IsPart, IsBody, IsMade, AreMade, AreThere, is_pointless_with, gathered_of, form_of};

use crate::Node;
use crate::part::{Bounds, Compositor, Part};
use std::alloc::{AllocError, Global};
use xs_lists::Listed;

/// What was made of a node: the node below its occurrences, the bounds of these, and the part of its form.
#[derive(Clone, Copy)]
pub(crate) struct Made {
    pub(crate) body: usize,
    pub(crate) bounds: Bounds,
    pub(crate) form: Option<u32>,
}

/// What forms are made from: the nodes, whether the form of each is asked for, and for each particle the terms that it stands for.
#[derive(Clone, Copy)]
pub(crate) struct Source<'a> {
    pub(crate) nodes: &'a [Node],
    pub(crate) asked: &'a [bool],
    pub(crate) stands_for: &'a [Listed<u32>],
}

/// Makes the forms of all nodes that are asked for, each over what was made of those before it.
pub(crate) fn make_nodes(
    alloc: Global,
    parts: &mut Vec<Part>,
    source: &Source<'_>,
) -> Result<Vec<Made>, AllocError>
    requires nodes { IsOrdered source.now.nodes.now }
    requires asked { AreAsked source.now.nodes.now source.now.asked.now }
    requires ordered { AreOrdered parts.old.items }
    ensures ordered { OnOk result (AreOrdered parts.new.items) }
    ensures count { IfOk result (λ made. length made.items ≡ length source.now.nodes.now) }
    ensures made { IfOk result (λ made. AreMade (λ n. slice_index_or source.now.stands_for.now n []) source.now.nodes.now source.now.asked.now parts.new.items made.items) }
{
    let mut made = Vec::new(alloc);
    for number in 0..source.nodes.len() {
        let next = make_node(alloc, parts, &made, source, number)?;
        made.push(next)?;
    }
    Ok(made)
}

/// Makes the form of the next node, where it is asked for.
fn make_node(
    alloc: Global,
    parts: &mut Vec<Part>,
    made: &[Made],
    source: &Source<'_>,
    number: usize,
) -> Result<Made, AllocError>
    requires nodes { IsOrdered source.now.nodes.now }
    requires asked { AreAsked source.now.nodes.now source.now.asked.now }
    requires number { number ≡ length made.now }
    requires there { number < length source.now.nodes.now }
    requires ordered { AreOrdered parts.old.items }
    requires made { AreMade (λ n. slice_index_or source.now.stands_for.now n []) source.now.nodes.now source.now.asked.now parts.old.items made.now }
    ensures extends { OnOk result (Extends parts.old.items parts.new.items) }
    ensures made { IfOk result (IsMade (λ n. slice_index_or source.now.stands_for.now n []) source.now.nodes.now source.now.asked.now parts.new.items number) }
{
    match &source.nodes[number] {
        Node::Occurs(part, least, most) => {
            let inner = made[*part as usize];
            let outer = Bounds {
                least: *least,
                most: *most,
            };
            let body = inner.body;
            let bounds = outer.around(inner.bounds);
            let form = if source.asked[number] {
                form_with(alloc, parts, made, source, inner, bounds)?
            } else {
                None
            };
            Ok(Made { body, bounds, form })
        }
        _ => {
            let body = number;
            let bounds = Bounds::once();
            let form = if source.asked[number] {
                add_body(alloc, parts, made, source, body, bounds)?
            } else {
                None
            };
            Ok(Made { body, bounds, form })
        }
    }
}

/// The form of the node below some occurrences, with these bounds around it; it was made where they are 1 and 1.
fn form_with(
    alloc: Global,
    parts: &mut Vec<Part>,
    made: &[Made],
    source: &Source<'_>,
    inner: Made,
    bounds: Bounds,
) -> Result<Option<u32>, AllocError>
    requires nodes { IsOrdered source.now.nodes.now }
    requires asked { AreAsked source.now.nodes.now source.now.asked.now }
    requires below { inner.body < length made.now }
    requires there { inner.body < length source.now.nodes.now }
    requires body { IsBody source.now.nodes.now inner.body }
    requires ordered { AreOrdered parts.old.items }
    requires made { AreMade (λ n. slice_index_or source.now.stands_for.now n []) source.now.nodes.now source.now.asked.now parts.old.items made.now }
    requires once { is_once bounds ≡ true → IsPart parts.old.items parts.old.items (formed (λ n. slice_index_or source.now.stands_for.now n []) (model_in source.now.nodes.now inner.body) bounds) inner.form }
    ensures { IfOk result (IsPart parts.old.items parts.new.items (formed (λ n. slice_index_or source.now.stands_for.now n []) (model_in source.now.nodes.now inner.body) bounds)) }
{
    if bounds.is_once() {
        return Ok(inner.form);
    }
    add_body(alloc, parts, made, source, inner.body, bounds)
}

/// Adds the form of a node that is no occurrence, with these bounds.
fn add_body(
    alloc: Global,
    parts: &mut Vec<Part>,
    made: &[Made],
    source: &Source<'_>,
    body: usize,
    bounds: Bounds,
) -> Result<Option<u32>, AllocError>
    requires nodes { IsOrdered source.now.nodes.now }
    requires asked { AreAsked source.now.nodes.now source.now.asked.now }
    requires below { body ≤ length made.now }
    requires there { body < length source.now.nodes.now }
    requires body { IsBody source.now.nodes.now body }
    requires ordered { AreOrdered parts.old.items }
    requires made { AreMade (λ n. slice_index_or source.now.stands_for.now n []) source.now.nodes.now source.now.asked.now parts.old.items made.now }
    ensures { IfOk result (IsPart parts.old.items parts.new.items (formed (λ n. slice_index_or source.now.stands_for.now n []) (model_in source.now.nodes.now body) bounds)) }
{
    match &source.nodes[body] {
        Node::Term(particle) => {
            add_term(alloc, parts, bounds, terms_of(source.stands_for, *particle))
        }
        Node::Sequence(members) => {
            let below = gather(alloc, parts, made, Compositor::Sequence, members.as_slice())?;
            add_group(parts, bounds, Compositor::Sequence, below)
        }
        Node::Choice(members) => {
            let below = gather(alloc, parts, made, Compositor::Choice, members.as_slice())?;
            add_group(parts, bounds, Compositor::Choice, below)
        }
        Node::Each(members) => {
            let below = gather(alloc, parts, made, Compositor::All, members.as_slice())?;
            add_group(parts, bounds, Compositor::All, below)
        }
        Node::Occurs(..) => Ok(None),
    }
}

/// The terms that the particle of a number stands for.
fn terms_of(stands_for: &[Listed<u32>], particle: u32) -> &[u32]
    ensures { result.now ≡ slice_index_or stands_for.now particle [] }
{
    match stands_for.get(particle as usize) {
        Some(terms) => terms.as_slice(),
        None => &[],
    }
}

/// The parts that stand among the members of a group of this compositor for the forms of these nodes.
fn gather(
    alloc: Global,
    parts: &[Part],
    made: &[Made],
    compositor: Compositor,
    members: &[u32],
) -> Result<Vec<u32>, AllocError>
    requires members { All (λ id. id < length made.now) members.now }
    requires ordered { AreOrdered parts.now }
    requires made { AreThere parts.now made.now }
    ensures below { IfOk result (λ below. All (λ id. id < length parts.now) below.items) }
    ensures trees { IfOk result (λ below. members_at (trees_from [] parts.now) below.items ≡ gathered_of compositor (map (form_of parts.now made.now) members.now)) }
{
    let mut below = Vec::new(alloc);
    for member in members {
        let form = made[*member as usize].form;
        add_form(parts, compositor, form, &mut below)?;
    }
    Ok(below)
}

/// Adds what stands among the members of a group for a form: its members where it is pointless there, else its part.
fn add_form(
    parts: &[Part],
    compositor: Compositor,
    form: Option<u32>,
    below: &mut Vec<u32>,
) -> Result<(), AllocError>
    requires form { IfSome form (λ id. id < length parts.now) }
    requires ordered { AreOrdered parts.now }
    requires below { All (λ id. id < length parts.now) below.old.items }
    ensures below { OnOk result (All (λ id. id < length parts.now) below.new.items) }
    ensures trees { OnOk result (members_at (trees_from [] parts.now) below.new.items ≡ joined (members_at (trees_from [] parts.now) below.old.items) (members_by compositor (form_in parts.now form))) }
{
    let Some(id) = form else {
        return Ok(());
    };
    match pointless_members(parts, compositor, id) {
        Some(members) => below.extend_from_slice(members)?,
        None => below.push(id)?,
    }
    Ok(())
}

/// The members of a part that is pointless in a group of this compositor.
fn pointless_members(parts: &[Part], compositor: Compositor, form: u32) -> Option<&[u32]>
    requires form { form < length parts.now }
    requires ordered { AreOrdered parts.now }
    ensures { MatchOption result (members_by compositor (Some (tree_in parts.now form)) ≡ member (tree_in parts.now form) none)
        (λ members. All (λ id. id < length parts.now) members.now × (members_by compositor (Some (tree_in parts.now form)) ≡ members_at (trees_from [] parts.now) members.now)) }
{
    match &parts[form as usize] {
        Part::Leaf(..) => None,
        Part::Group(bounds, inner, members) => {
            if bounds.is_once() && compositor.takes_in(*inner) {
                return Some(members.as_slice());
            }
            None
        }
    }
}

/// Adds a group, unless it is pointless by its own members.
fn add_group(
    parts: &mut Vec<Part>,
    bounds: Bounds,
    compositor: Compositor,
    members: Vec<u32>,
) -> Result<Option<u32>, AllocError>
    requires ordered { AreOrdered parts.old.items }
    requires members { All (λ id. id < length parts.old.items) members.items }
    ensures { IfOk result (IsPart parts.old.items parts.new.items (unless_pointless bounds compositor (members_at (trees_from [] parts.old.items) members.items))) }
{
    if is_pointless(bounds, compositor, members.len()) {
        return Ok(members.first().copied());
    }
    let id = add_part(
        parts,
        Part::Group(bounds, compositor, Listed::from_vec(members)),
    )?;
    Ok(Some(id))
}

/// Whether a group with so many members is pointless.
fn is_pointless(bounds: Bounds, compositor: Compositor, members: usize) -> bool
    ensures { result ≡ is_pointless_with bounds compositor members }
{
    match members {
        0 => compositor != Compositor::Choice || bounds.least == 0,
        1 => bounds.is_once(),
        _ => false,
    }
}

/// Adds an element or a wildcard, or a choice of all terms that it stands for.
fn add_term(
    alloc: Global,
    parts: &mut Vec<Part>,
    bounds: Bounds,
    terms: &[u32],
) -> Result<Option<u32>, AllocError>
    requires ordered { AreOrdered parts.old.items }
    ensures { IfOk result (IsPart parts.old.items parts.new.items (term_form bounds terms.now)) }
{
    if terms.len() == 1 {
        let id = add_part(parts, Part::Leaf(bounds, terms[0]))?;
        return Ok(Some(id));
    }
    let members = add_leaves(alloc, parts, terms)?;
    add_group(parts, bounds, Compositor::Choice, members)
}

/// Adds terms, each once.
fn add_leaves(alloc: Global, parts: &mut Vec<Part>, terms: &[u32]) -> Result<Vec<u32>, AllocError>
    requires ordered { AreOrdered parts.old.items }
    ensures extends { OnOk result (Extends parts.old.items parts.new.items) }
    ensures below { IfOk result (λ members. All (λ id. id < length parts.new.items) members.items) }
    ensures trees { IfOk result (λ members. members_at (trees_from [] parts.new.items) members.items ≡ leaves terms.now) }
{
    let mut members = Vec::new(alloc);
    for term in terms {
        let id = add_part(parts, Part::Leaf(Bounds::once(), *term))?;
        members.push(id)?;
    }
    Ok(members)
}

/// Adds a part, and answers its number.
fn add_part(parts: &mut Vec<Part>, part: Part) -> Result<u32, AllocError>
    requires below { MembersBelow (length parts.old.items) part }
    ensures { IfOk result (λ id. IsPart parts.old.items parts.new.items (Some (tree_of (trees_from [] parts.old.items) part)) (Some id)) }
{
    let number = parts.len();
    if number > u32::MAX as usize {
        return Err(AllocError);
    }
    parts.push(part)?;
    Ok(number as u32)
}
