ghost use Rattle.std.specs.Prelude.{◌≡◌, ◌+◌, ◌∷◌, ◌++◌, [], List, All, length, map, IfOk, OnOk, OnErr};
ghost use Rattle.std.specs.Option.{option_copied};
ghost use Rattle.tag_names.specs.Packed.{line_at, Fits};
ghost use Rattle.tag_names.specs.Scopes as scopes;
ghost use Rattle.tag_names.specs.Seen.{faults_with, line_faults};
ghost use Rattle.tag_names.specs.Tags as tags;
ghost use Rattle.tag_names.specs.declared.lines.AttributeLine.{AttributeLine as Line};

use crate::named::put_binding;
use crate::seen::{LineFaults, SeenLines};
use crate::{AttributeLine, Prefixes};
use std::alloc::{AllocError, Global};
use std::marker::Model;
use tree_rows::Bindings;
use xs_lists::Listed;
use xs_names::{Text, TextPool};

/// Where the name and the value of a line stand among the characters of all lines.
#[derive(Clone, Copy)]
struct Spot {
    start: usize,
    middle: usize,
    end: usize,
}

/// The name of the line at a spot.
fn name_at<'a>(text: &'a str, spot: &Spot) -> &'a str
    requires { Fits text.now spot.now }
    ensures { result.now ≡ (line_at text.now spot.now).name }
{
    &text[spot.start..spot.middle]
}

/// The value of the line at a spot.
fn value_at<'a>(text: &'a str, spot: &Spot) -> &'a str
    requires { Fits text.now spot.now }
    ensures { result.now ≡ (line_at text.now spot.now).value }
{
    &text[spot.middle..spot.end]
}

/// The line at a spot, with texts of its own.
fn copy_line(alloc: Global, text: &str, spot: &Spot) -> Result<AttributeLine, AllocError>
    requires { Fits text.now spot.now }
    ensures { IfOk result (λ line. line ≡ line_at text.now spot.now) }
{
    let name = Text::new(alloc, name_at(text, spot))?;
    let value = Text::new(alloc, value_at(text, spot))?;
    Ok(AttributeLine { name, value })
}

/// The lines at spots, with texts of their own.
fn copy_lines(
    alloc: Global,
    text: &str,
    spots: &[Spot],
) -> Result<Listed<AttributeLine>, AllocError>
    requires { All (Fits text.now) spots.now }
    ensures { IfOk result (λ lines. lines ≡ map (line_at text.now) spots.now) }
{
    let mut lines = Listed::new(alloc);
    for spot in spots {
        lines.push(copy_line(alloc, text, spot)?)?;
    }
    Ok(lines)
}

/// Puts what the line at a spot binds behind the bindings, if it is a binding.
fn put_bound(
    alloc: Global,
    pool: &mut TextPool,
    bindings: &mut Bindings,
    text: &str,
    spot: &Spot,
) -> Result<(), AllocError>
    requires { Fits text.now spot.now }
    ensures { OnOk result ((more : List Line) → bindings.new ++ tags.bindings_in more ≡ bindings.old ++ tags.bindings_in (line_at text.now spot.now ∷ more)) }
{
    let line = copy_line(alloc, text, spot)?;
    put_binding(pool, bindings, &line)?;
    Ok(())
}

/// The bindings among the lines at spots, in order.
fn bindings_at(
    alloc: Global,
    pool: &mut TextPool,
    text: &str,
    spots: &[Spot],
) -> Result<Bindings, AllocError>
    requires { All (Fits text.now) spots.now }
    ensures { IfOk result (λ bindings. bindings ≡ tags.bindings_in (map (line_at text.now) spots.now)) }
{
    let mut bindings = Bindings::new(alloc);
    for spot in spots {
        put_bound(alloc, pool, &mut bindings, text, spot)?;
    }
    Ok(bindings)
}

/// Takes the line at a spot, where these bindings come before a scope.
fn take_at(
    seen: &mut SeenLines,
    own: Option<&Prefixes>,
    scope: &Prefixes,
    text: &str,
    spot: &Spot,
) -> Result<(), AllocError>
    requires { Fits text.now spot.now }
    ensures { OnOk result ((more : List Line) → faults_with (scopes.own_of (option_copied own.entry) ++ scope.now) seen.new more
        ≡ faults_with (scopes.own_of (option_copied own.entry) ++ scope.now) seen.old (line_at text.now spot.now ∷ more)) }
{
    seen.take(own, scope, name_at(text, spot))?;
    Ok(())
}

/// What stands against the lines at spots, where these bindings come before a scope.
fn faults_at(
    alloc: Global,
    own: Option<&Prefixes>,
    scope: &Prefixes,
    text: &str,
    spots: &[Spot],
) -> Result<LineFaults, AllocError>
    requires { All (Fits text.now) spots.now }
    ensures { IfOk result (λ found. found ≡ line_faults (scopes.own_of (option_copied own.entry) ++ scope.now) (map (line_at text.now) spots.now)) }
{
    let mut seen = SeenLines::new(alloc, spots.len())?;
    for spot in spots {
        take_at(&mut seen, own, scope, text, spot)?;
    }
    Ok(seen.faults())
}

/// The sum of two lengths.
fn sum(one: usize, other: usize) -> Result<usize, AllocError>
    ensures { IfOk result (λ sum. sum ≡ one + other) }
{
    match one.checked_add(other) {
        Some(sum) => Ok(sum),
        None => Err(AllocError),
    }
}

/// Attribute lines whose characters stand one behind the other. Contracts see the list of the lines.
pub(crate) struct PackedLines {
    alloc: Global,
    text: String,
    spots: Vec<Spot>,
}

impl Model for PackedLines {
    ghost use Rattle.std.specs.Prelude.{List};
    ghost use Rattle.tag_names.specs.declared.lines.AttributeLine.{AttributeLine};

    ghost Value = { List AttributeLine };

    ghost use Rattle.std.specs.Prelude.{All, map, string_bytes};
    ghost use Rattle.tag_names.specs.Packed.{line_at, Fits};

    ghost view = { λ packed. map (line_at (string_bytes packed.text)) packed.spots.items };

    ghost invariant = { λ packed. All (Fits (string_bytes packed.text)) packed.spots.items };
}

impl PackedLines {
    /// No lines.
    fn new(alloc: Global) -> Self
        ensures { result ≡ [] }
    {
        PackedLines {
            alloc,
            text: String::new(alloc),
            spots: Vec::new(alloc),
        }
    }

    /// Copies of these lines.
    pub(crate) fn of_lines(alloc: Global, lines: &[AttributeLine]) -> Result<Self, AllocError>
        ensures { IfOk result (λ packed. packed ≡ lines.now) }
    {
        let mut packed = PackedLines::new(alloc);
        for line in lines {
            packed.push(line)?;
        }
        Ok(packed)
    }

    /// Puts a copy of a line at the end.
    pub(crate) fn push(&mut self, line: &AttributeLine) -> Result<(), AllocError>
        ensures ok { OnOk result (self.new ≡ self.old ++ line.now ∷ []) }
        ensures err { OnErr result (self.new ≡ self.old) }
    {
        let mut characters = String::from_str(self.alloc, line.name.as_str())?;
        let start = self.text.len();
        let middle = sum(start, characters.len())?;
        characters.push_str(line.value.as_str())?;
        let end = sum(start, characters.len())?;
        self.spots.push(Spot { start, middle, end })?;
        match self.text.push_str(characters.as_str()) {
            Ok(()) => Ok(()),
            Err(_) => {
                self.spots.pop();
                Err(AllocError)
            }
        }
    }

    /// The number of lines.
    pub(crate) fn len(&self) -> usize
        ensures { result ≡ length self.now }
    {
        self.spots.len()
    }

    /// The lines, with texts of their own.
    pub(crate) fn unpacked(&self) -> Result<Listed<AttributeLine>, AllocError>
        ensures { IfOk result (λ lines. lines ≡ self.now) }
    {
        copy_lines(self.alloc, self.text.as_str(), self.spots.as_slice())
    }

    /// The bindings among the lines, in order.
    pub(crate) fn bindings(&self, pool: &mut TextPool) -> Result<Bindings, AllocError>
        ensures { IfOk result (λ bindings. bindings ≡ tags.bindings_in self.now) }
    {
        bindings_at(self.alloc, pool, self.text.as_str(), self.spots.as_slice())
    }

    /// What stands against the lines, where these bindings come before a scope.
    pub(crate) fn faults(
        &self,
        own: Option<&Prefixes>,
        scope: &Prefixes,
    ) -> Result<LineFaults, AllocError>
        ensures { IfOk result (λ found. found ≡ line_faults (scopes.own_of (option_copied own.entry) ++ scope.now) self.now) }
    {
        faults_at(
            self.alloc,
            own,
            scope,
            self.text.as_str(),
            self.spots.as_slice(),
        )
    }
}

impl Drop for PackedLines {
    fn drop(self) {
        let PackedLines {
            alloc: _,
            text,
            spots,
        } = self;
        drop(text);
        drop(spots);
    }
}
