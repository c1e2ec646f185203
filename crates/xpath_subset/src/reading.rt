ghost use Rattle.std.specs.Prelude.{◌≡◌, ◌==◌, ◌<◌, ◌++◌, Bool, false, List, Some, codes, map, IfOk, MatchOption};
ghost use Rattle.std.specs.List.{slice_split};
ghost use Rattle.std.specs.Option.{option_map, option_and_then};
ghost use Rattle.xs_names.specs.QName.{joined};
ghost use Rattle.xpath_subset.specs.Grammar.{WrittenTest, WrittenStep, child, attribute, IsName, IsTest, IsElementStep, EndsIn, IsPath, ArePaths, IsSelector, IsField, IsReading, test_meaning, step_meaning, steps_meaning, all_there, to_elements, to_attributes, way_meaning, path_meaning, paths_meaning};
ghost use Rattle.xpath_subset.specs.inside.Gives.{AreWritten, AreWrittenAndLast, Gives, LacksToken, IsAfter, with_one, answer_of};
ghost use Rattle.xpath_subset.specs.inside.Lasts.{IsLastOf, EndsAtElement, EndsAtAttribute};
ghost use Rattle.xpath_subset.specs.inside.Trims.{trim_front, trim_end, trim_white, IsTrimmed};

use crate::{NameTest, Path, Paths, Step};
use std::alloc::{AllocError, Global};
use xs_lists::Listed;
use xs_names::{NsId, Scope, Text, is_ncname, split_qname};

// The characters of white space (XML 1.0, 2.3).
const WHITE_SPACE: [char; 4] = [' ', '\t', '\n', '\r'];

/// Why a text is no selector or field.
#[derive(Clone, Copy)]
pub enum XPathFault {
    /// The text is outside the grammar of selectors, or of fields.
    Syntax,
    /// The text is inside the grammar, and has a prefix without a binding.
    Unbound,
}

// Why a reading ends early.
enum Refusal {
    Memory,
    Syntax,
}

impl From<AllocError> for Refusal {
    ghost use Rattle.xpath_subset.specs.declared.reading.Refusal.TheVariants.{Memory};

    ghost from_gives = { λ _ made. made ≡ Memory };

    fn from(_error: AllocError) -> Self {
        Refusal::Memory
    }
}

// Whether the last step may go to an attribute.
#[derive(Clone, Copy)]
enum Kind {
    Selector,
    Field,
}

/// Reads a selector (Structures 3.11.6). The scope gives the namespaces of prefixes.
pub fn read_selector(
    alloc: Global,
    text: &str,
    scope: &Scope,
) -> Result<Result<Paths, XPathFault>, AllocError>
    ensures { IfOk result (IsReading (IsSelector text.now) (paths_meaning scope.now)) }
{
    answer(read_paths(alloc, text, Kind::Selector, scope))
}

/// Reads a field (Structures 3.11.6), whose paths may end in an attribute. The scope gives the namespaces of prefixes.
pub fn read_field(
    alloc: Global,
    text: &str,
    scope: &Scope,
) -> Result<Result<Paths, XPathFault>, AllocError>
    ensures { IfOk result (IsReading (IsField text.now) (paths_meaning scope.now)) }
{
    answer(read_paths(alloc, text, Kind::Field, scope))
}

// The answer of a public call: what was read, or nothing where a prefix is not bound.
fn answer(read: Result<Option<Paths>, Refusal>) -> Result<Result<Paths, XPathFault>, AllocError>
    ensures { IfOk result (λ answer. answer_of read ≡ Some answer) }
{
    match read {
        Ok(Some(paths)) => Ok(Ok(paths)),
        Ok(None) => Ok(Err(XPathFault::Unbound)),
        Err(Refusal::Syntax) => Ok(Err(XPathFault::Syntax)),
        Err(Refusal::Memory) => Err(AllocError),
    }
}

// The text without the white space at its beginning.
fn trimmed_front(text: &str) -> &str
    ensures { result.now ≡ trim_front text.now }
{
    text.trim_start_matches(WHITE_SPACE)
}

// The text without the white space at its end.
fn trimmed_end(text: &str) -> &str
    ensures { result.now ≡ trim_end text.now }
{
    text.trim_end_matches(WHITE_SPACE)
}

// The text without white space at its ends.
fn trimmed(text: &str) -> &str
    ensures value { result.now ≡ trim_white text.now }
    ensures ends { IsTrimmed result.now }
{
    trimmed_end(trimmed_front(text))
}

// The pieces of a text between separators.
fn pieces<'a>(alloc: Global, text: &'a str, separator: char) -> Result<Vec<&'a str>, AllocError>
    requires { separator < 128 }
    ensures { IfOk result (λ pieces. map (λ p. p.now) pieces.items ≡ slice_split (λ b. b == separator) text.now) }
{
    text.split(separator).collect(alloc)
}

// What follows a token at the beginning of the text, without white space before it.
fn after<'a>(text: &'a str, token: &str) -> Option<&'a str>
    ensures { MatchOption result (LacksToken token.now text.now) (λ rest. IsAfter token.now text.now rest.now) }
{
    let rest = text.strip_prefix(token)?;
    Some(trimmed_front(rest))
}

// A name test: one token. `None` where its prefix is not bound.
fn read_test(alloc: Global, text: &str, scope: &Scope) -> Result<Option<NameTest>, Refusal>
    ensures { Gives (λ test. IsTest test text.now) (test_meaning scope.now) result }
{
    if text == "*" {
        return Ok(Some(NameTest::Any));
    }
    if let Some(prefix) = text.strip_suffix(":*") {
        return read_any_of(prefix, scope);
    }
    match split_qname(text) {
        Err(_) => Err(Refusal::Syntax),
        Ok((None, local)) => Ok(Some(NameTest::Name(NsId::ABSENT, Text::new(alloc, local)?))),
        Ok((Some(prefix), local)) => read_prefixed(alloc, prefix, local, scope),
    }
}

// The test `prefix:*`.
fn read_any_of(prefix: &str, scope: &Scope) -> Result<Option<NameTest>, Refusal>
    ensures { Gives (λ test. IsTest test (prefix.now ++ codes ":*")) (test_meaning scope.now) result }
{
    if !is_ncname(prefix) {
        return Err(Refusal::Syntax);
    }
    match scope.resolve(Some(prefix)) {
        Ok(space) => Ok(Some(NameTest::Namespace(space))),
        Err(_) => Ok(None),
    }
}

// The test `prefix:local`.
fn read_prefixed(
    alloc: Global,
    prefix: &str,
    local: &str,
    scope: &Scope,
) -> Result<Option<NameTest>, Refusal>
    requires prefix { IsName prefix.now }
    requires local { IsName local.now }
    ensures { Gives (λ test. IsTest test (joined (Some prefix.now) local.now)) (test_meaning scope.now) result }
{
    match scope.resolve(Some(prefix)) {
        Ok(space) => Ok(Some(NameTest::Name(space, Text::new(alloc, local)?))),
        Err(_) => Ok(None),
    }
}

// A step to elements.
fn read_step(alloc: Global, text: &str, scope: &Scope) -> Result<Option<Step>, Refusal>
    ensures { Gives (λ step. IsElementStep step text.now) (step_meaning scope.now) result }
{
    if text == "." {
        return Ok(Some(Step::Itself));
    }
    match read_child(alloc, text, scope) {
        Ok(Some(test)) => Ok(Some(Step::Child(test))),
        Ok(None) => Ok(None),
        Err(refusal) => Err(refusal),
    }
}

// A name test after `child::` or alone.
fn read_child(alloc: Global, text: &str, scope: &Scope) -> Result<Option<NameTest>, Refusal>
    ensures { Gives {W = Bool × WrittenTest} (λ step. IsElementStep (child step.0 step.1) text.now) (λ step. test_meaning scope.now step.1) result }
{
    match after(text, "child::") {
        Some(test) => read_test(alloc, test, scope),
        None => read_test(alloc, text, scope),
    }
}

// What follows `@` or `attribute::`, which may begin the last step of a field.
fn attribute_test(text: &str, kind: Kind) -> Option<&str>
    ensures { MatchOption result (EndsAtElement (IsLastOf kind) text.now) (λ test. EndsAtAttribute (IsLastOf kind) text.now test.now) }
{
    match kind {
        Kind::Selector => None,
        Kind::Field => match after(text, "@") {
            Some(test) => Some(test),
            None => after(text, "attribute::"),
        },
    }
}

// Steps to elements; `None` where a prefix is not bound.
fn read_steps(
    alloc: Global,
    pieces: &[&str],
    scope: &Scope,
) -> Result<Option<Listed<Step>>, Refusal>
    ensures { Gives (λ steps. AreWritten IsElementStep steps (map (λ p. trim_white p.now) pieces.now)) (steps_meaning scope.now) result }
{
    let mut steps = Some(Listed::new(alloc));
    for piece in pieces {
        match read_step(alloc, trimmed(piece), scope) {
            Ok(read) => steps = and_one(steps, read)?,
            Err(refusal) => return Err(refusal),
        }
    }
    Ok(steps)
}

// The values so far and one more; `None` where a prefix is not bound.
fn and_one<T: Drop>(
    values: Option<Listed<T>>,
    read: Option<T>,
) -> Result<Option<Listed<T>>, AllocError>
    ensures { IfOk result (λ all. all ≡ with_one values read) }
{
    let Some(mut values) = values else {
        return Ok(None);
    };
    let Some(value) = read else {
        return Ok(None);
    };
    values.push(value)?;
    Ok(Some(values))
}

// A path whose last step goes to elements, by its pieces.
fn read_to_element(
    alloc: Global,
    pieces: &[&str],
    anywhere: bool,
    scope: &Scope,
) -> Result<Option<Path>, Refusal>
    ensures { Gives (λ steps. AreWritten IsElementStep steps (map (λ p. trim_white p.now) pieces.now)) (λ steps. option_map (to_elements anywhere) (steps_meaning scope.now steps)) result }
{
    match read_steps(alloc, pieces, scope) {
        Ok(Some(steps)) => Ok(Some(Path {
            anywhere,
            steps,
            attribute: None,
        })),
        Ok(None) => Ok(None),
        Err(refusal) => Err(refusal),
    }
}

// A path whose last step goes to attributes, by the pieces before it and its test.
fn read_to_attribute(
    alloc: Global,
    pieces: &[&str],
    test: &str,
    anywhere: bool,
    scope: &Scope,
) -> Result<Option<Path>, Refusal>
    ensures { Gives {W = List WrittenStep × WrittenTest} (λ way. AreWritten IsElementStep way.0 (map (λ p. trim_white p.now) pieces.now) × IsTest way.1 test.now) (λ way. way_meaning scope.now anywhere way.0 (attribute false way.1)) result }
{
    let steps = match read_steps(alloc, pieces, scope) {
        Ok(steps) => steps,
        Err(refusal) => return Err(refusal),
    };
    let test = match read_test(alloc, test, scope) {
        Ok(test) => test,
        Err(refusal) => return Err(refusal),
    };
    Ok(to_attribute(anywhere, steps, test))
}

// The path of these steps and this test; `None` where a prefix is not bound.
fn to_attribute(anywhere: bool, steps: Option<Listed<Step>>, test: Option<NameTest>) -> Option<Path>
    ensures { result ≡ option_and_then (λ way. option_map (to_attributes anywhere way) test) steps }
{
    let steps = steps?;
    let attribute = Some(test?);
    Some(Path {
        anywhere,
        steps,
        attribute,
    })
}

// The steps of a path, by its pieces.
fn read_pieces(
    alloc: Global,
    pieces: &[&str],
    anywhere: bool,
    kind: Kind,
    scope: &Scope,
) -> Result<Option<Path>, Refusal>
    ensures { Gives {W = List WrittenStep × WrittenStep} (λ way. AreWrittenAndLast IsElementStep (IsLastOf kind) way.0 way.1 (map (λ p. trim_white p.now) pieces.now)) (λ way. way_meaning scope.now anywhere way.0 way.1) result }
{
    let Some((last, front)) = pieces.split_last() else {
        return Err(Refusal::Syntax);
    };
    match attribute_test(trimmed(last), kind) {
        Some(test) => read_to_attribute(alloc, front, test, anywhere, scope),
        None => read_to_element(alloc, pieces, anywhere, scope),
    }
}

// The steps of a path.
fn read_way(
    alloc: Global,
    text: &str,
    anywhere: bool,
    kind: Kind,
    scope: &Scope,
) -> Result<Option<Path>, Refusal>
    requires { IsTrimmed text.now }
    ensures { Gives {W = List WrittenStep × WrittenStep} (λ way. EndsIn 0x2F IsElementStep (IsLastOf kind) way.0 way.1 text.now) (λ way. way_meaning scope.now anywhere way.0 way.1) result }
{
    let pieces = pieces(alloc, text, '/')?;
    read_pieces(alloc, pieces.as_slice(), anywhere, kind, scope)
}

// A path.
fn read_path(alloc: Global, text: &str, kind: Kind, scope: &Scope) -> Result<Option<Path>, Refusal>
    requires { IsTrimmed text.now }
    ensures { Gives (λ path. IsPath (IsLastOf kind) path text.now) (path_meaning scope.now) result }
{
    match after(text, ".//") {
        Some(way) => read_way(alloc, way, true, kind, scope),
        None => read_way(alloc, text, false, kind, scope),
    }
}

// Paths, each by its piece.
fn read_each(
    alloc: Global,
    pieces: &[&str],
    kind: Kind,
    scope: &Scope,
) -> Result<Option<Paths>, Refusal>
    ensures { Gives (λ paths. AreWritten (IsPath (IsLastOf kind)) paths (map (λ p. trim_white p.now) pieces.now)) (λ paths. all_there (map (path_meaning scope.now) paths)) result }
{
    let mut paths = Some(Paths::new(alloc));
    for piece in pieces {
        match read_path(alloc, trimmed(piece), kind, scope) {
            Ok(read) => paths = and_one(paths, read)?,
            Err(refusal) => return Err(refusal),
        }
    }
    Ok(paths)
}

// Paths joined by `|`.
fn read_paths(
    alloc: Global,
    text: &str,
    kind: Kind,
    scope: &Scope,
) -> Result<Option<Paths>, Refusal>
    ensures { Gives (ArePaths (IsLastOf kind) text.now) (paths_meaning scope.now) result }
{
    if trimmed(text) != text {
        return Err(Refusal::Syntax);
    }
    let pieces = pieces(alloc, text, '|')?;
    read_each(alloc, pieces.as_slice(), kind, scope)
}
