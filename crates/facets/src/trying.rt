//! Literals of lists and of unions.
ghost use Rattle.std.specs.Prelude.{◌≡◌, ◌+◌, [], ◌++◌, IfOk, OnOk};
ghost use Rattle.facets.specs.Trying as spec;

use crate::Accepted;
use crate::atomic::{MOST_ITEMS, judged_value, read_atomic, way_of};
use crate::members::{Choices, Gate, Literals, Member, Plain, Union, gates_of};
use facet_checks::FacetList;
use simple_values::{Atoms, TypedAtom, Value};
use std::alloc::{AllocError, Global};
use xs_codes::Code;
use xs_names::{Scope, Text, count_items, items, normalized};

/// What came of a text.
pub(crate) type Outcome = Result<Accepted, Code>;

/// What a text reads to as a literal of a union: what its first member reads it to that accepts it; a limit before that ends
/// the trial (Structures 3.14.4).
pub(crate) fn read_union(
    alloc: Global,
    union_of: &Union,
    text: &str,
    scope: &Scope,
) -> Result<Outcome, AllocError>
    ensures { IfOk result (λ outcome. spec.IsUnionRead union_of.now scope.now text.now outcome) }
{
    let mut members = union_of.parts.leaves()?;
    let mut index = 0;
    let mut start = 0;
    'members: while let Some(member) = members.next()? {
        let place = index;
        index = one_more(place)?;
        if place < start {
            continue;
        }
        let read = read_member(alloc, member, text, scope)?;
        match turn_among(alloc, read, union_of, place, start)? {
            Turn::Ends(outcome) => return Ok(outcome),
            Turn::From(next) => start = next,
        }
    }
    Ok(Err(Code::CvcDatatypeValid1))
}

// Members are counted as far as memory goes.
fn one_more(index: usize) -> Result<usize, AllocError>
    ensures { IfOk result (λ more. more ≡ index + 1) }
{
    match index.checked_add(1) {
        Some(more) => Ok(more),
        None => Err(AllocError),
    }
}

// What comes of the answer of a member of a union.
fn turn_among(
    alloc: Global,
    read: Outcome,
    union_of: &Union,
    index: usize,
    start: usize,
) -> Result<Turn, AllocError>
    ensures { IfOk result (λ turn. spec.IsTurn union_of.now.gates index start read turn) }
{
    match read {
        Ok(accepted) => {
            let gates = gates_of(alloc, union_of)?;
            turn_of(alloc, Ok(accepted), gates.as_slice(), index, start)
        }
        Err(code) => turn_of(alloc, Err(code), &[], index, start),
    }
}

fn try_plains(
    alloc: Global,
    members: &[Plain],
    gates: &[Gate],
    text: &str,
    scope: &Scope,
) -> Result<Outcome, AllocError>
    ensures { IfOk result (λ outcome. spec.ArePlainsTried gates.now scope.now text.now 0 0 members.now outcome) }
{
    let mut start = 0;
    for place in 0..members.len() {
        if place < start {
            continue;
        }
        let read = read_plain(alloc, &members[place], text, scope)?;
        match turn_of(alloc, read, gates, place, start)? {
            Turn::Ends(outcome) => return Ok(outcome),
            Turn::From(next) => start = next,
        }
    }
    Ok(Err(Code::CvcDatatypeValid1))
}

/// What comes of a member's answer in a trial.
#[derive(Drop)]
pub enum Turn {
    /// The trial ends with this.
    Ends(Result<Accepted, Code>),
    /// It goes on behind the member, with the members from an index on.
    From(usize),
}

// What comes of a member's answer, where the members from an index on are still to try.
fn turn_of(
    alloc: Global,
    read: Outcome,
    gates: &[Gate],
    index: usize,
    start: usize,
) -> Result<Turn, AllocError>
    ensures { IfOk result (λ turn. spec.IsTurn gates.now index start read turn) }
{
    match read {
        Ok(accepted) => match shut_by(alloc, gates, index, &accepted)? {
            Some(next) => Ok(Turn::From(next)),
            None => Ok(Turn::Ends(Ok(accepted))),
        },
        Err(code) => {
            if is_limit(code) {
                Ok(Turn::Ends(Err(code)))
            } else {
                Ok(Turn::From(start))
            }
        }
    }
}

// Where the first union ends that has the member of an index and whose facets what it accepted does not meet.
fn shut_by(
    alloc: Global,
    gates: &[Gate],
    index: usize,
    accepted: &Accepted,
) -> Result<Option<usize>, AllocError>
    ensures { IfOk result (λ shut. spec.IsShut gates.now index accepted.now shut) }
{
    for gate in gates {
        if let Some(next) = shut_at(alloc, gate, index, accepted)? {
            return Ok(Some(next));
        }
    }
    Ok(None)
}

// Where this union ends, if it has the member and its facets are not met.
fn shut_at(
    alloc: Global,
    gate: &Gate,
    index: usize,
    accepted: &Accepted,
) -> Result<Option<usize>, AllocError>
    ensures { IfOk result (λ shut. spec.IsShutAt gate.now index accepted.now shut) }
{
    if index < gate.from || gate.to <= index {
        return Ok(None);
    }
    let list = gate.list.get();
    match list.check(alloc, &accepted.value, accepted.text.as_str())? {
        Some(_) => Ok(Some(gate.to)),
        None => Ok(None),
    }
}

// Whether the code is of a limit.
fn is_limit(code: Code) -> bool
    ensures { result ≡ spec.is_limit code }
{
    matches!(code, Code::XLimitValue | Code::XLimitItems)
}

fn read_plain(
    alloc: Global,
    plain: &Plain,
    text: &str,
    scope: &Scope,
) -> Result<Outcome, AllocError>
    ensures { IfOk result (λ outcome. spec.IsPlainRead scope.now text.now plain.now outcome) }
{
    read_atomic(alloc, plain.kind, plain.list.get(), text, scope)
}

fn read_member(
    alloc: Global,
    member: &Member,
    text: &str,
    scope: &Scope,
) -> Result<Outcome, AllocError>
    ensures { IfOk result (λ outcome. spec.IsMemberRead scope.now text.now member.now outcome) }
{
    read_literal(alloc, &member.literals, member.list.get(), text, scope)
}

/// What a text reads to as a literal of a type that is no union and has these facets.
pub(crate) fn read_literal(
    alloc: Global,
    literals: &Literals,
    list: &FacetList,
    text: &str,
    scope: &Scope,
) -> Result<Outcome, AllocError>
    ensures { IfOk result (λ outcome. spec.IsLiteralRead literals.now list.now scope.now text.now outcome) }
{
    match literals {
        Literals::OfBuiltin(kind) => read_atomic(alloc, *kind, list, text, scope),
        Literals::OfList(choices) => read_list(alloc, choices.get(), list, text, scope),
    }
}

// What a text reads to as a list of items (Datatypes 4.1.4).
fn read_list(
    alloc: Global,
    choices: &Choices,
    list: &FacetList,
    text: &str,
    scope: &Scope,
) -> Result<Outcome, AllocError>
    ensures { IfOk result (λ outcome. spec.IsListRead choices.now list.now scope.now text.now outcome) }
{
    let treated = normalized(alloc, way_of(list), text)?;
    if count_items(treated.as_str()) > MOST_ITEMS {
        return Ok(Err(Code::XLimitItems));
    }
    let texts = items(alloc, treated.as_str())?;
    match read_items(alloc, choices, texts.as_slice(), scope)? {
        Ok(atoms) => judged_value(alloc, list, Value::List(atoms), treated),
        Err(code) => Ok(Err(code)),
    }
}

// The items of a list, or the code of the first that is not valid.
fn read_items(
    alloc: Global,
    choices: &Choices,
    texts: &[Text],
    scope: &Scope,
) -> Result<Result<Atoms, Code>, AllocError>
    ensures { IfOk result (λ outcome. spec.AreItemsRead choices.now scope.now [] texts.now outcome) }
{
    let mut atoms = Atoms::new(alloc);
    for text in texts {
        match read_item(alloc, choices, text.as_str(), scope)? {
            Ok(accepted) => push_atoms(&mut atoms, accepted.value)?,
            Err(code) => return Ok(Err(code)),
        }
    }
    Ok(Ok(atoms))
}

// One item.
fn read_item(
    alloc: Global,
    choices: &Choices,
    text: &str,
    scope: &Scope,
) -> Result<Outcome, AllocError>
    ensures { IfOk result (λ outcome. spec.IsItemRead choices.now scope.now text.now outcome) }
{
    let members = choices.members.as_slice();
    try_plains(alloc, members, choices.gates.as_slice(), text, scope)
}

// Puts the atom that a value is at the end, or those that it has.
fn push_atoms(atoms: &mut Atoms, value: Value) -> Result<(), AllocError>
    ensures { OnOk result (atoms.new ≡ atoms.old ++ spec.atoms_in value) }
{
    match value {
        Value::Atom { builtin, atom } => atoms.push(TypedAtom { builtin, atom }),
        Value::List(more) => copy_atoms(atoms, more.as_slice()),
    }
}

fn copy_atoms(atoms: &mut Atoms, more: &[TypedAtom]) -> Result<(), AllocError>
    ensures { OnOk result (atoms.new ≡ atoms.old ++ more.now) }
{
    for atom in more {
        atoms.push(atom.clone()?)?;
    }
    Ok(())
}
