ghost use Rattle.std.specs.Prelude.{◌<◌, All, IfOk, IfSome, length};

use std::alloc::{AllocError, Global};
use xpath_subset::{
    NameTest, Path, Paths, Step, XPathFault, is_reached, read_field, read_selector,
};
use xs_names::{NameId, Names, NsId, Scope, Text};

// The names and the bindings of the table.
#[derive(Drop)]
struct Table {
    names: Names,
    scope: Scope,
    spaces: Spaces,
}

// The namespaces that are bound beside that of `xml`: to the prefixes `p` and `q`, and as the default.
#[derive(Drop)]
struct Spaces {
    p: NsId,
    q: NsId,
    default: NsId,
}

/// The answer to a line.
pub fn answer(alloc: Global, line: &str) -> Result<String, AllocError> {
    match Table::new(alloc) {
        Ok(mut table) => table.answer(alloc, line),
        Err(error) => Err(error),
    }
}

// The namespaces of the table, and the scope in which they are bound.
fn bound(alloc: Global, names: &mut Names) -> Result<(Spaces, Scope), AllocError> {
    let spaces = Spaces {
        p: names.namespace_id("urn:p")?,
        q: names.namespace_id("urn:q")?,
        default: names.namespace_id("urn:d")?,
    };
    let mut scope = Scope::new(alloc)?;
    scope.bind(&Text::new(alloc, "p")?, spaces.p)?;
    scope.bind(&Text::new(alloc, "q")?, spaces.q)?;
    scope.bind(&Text::new(alloc, "")?, spaces.default)?;
    Ok((spaces, scope))
}

impl Table {
    // The prefixes `p` and `q` and the default namespace bound.
    fn new(alloc: Global) -> Result<Self, AllocError> {
        let mut names = Names::new(alloc)?;
        let (spaces, scope) = bound(alloc, &mut names)?;
        Ok(Table {
            names,
            scope,
            spaces,
        })
    }

    fn answer(&mut self, alloc: Global, line: &str) -> Result<String, AllocError> {
        let Some((kind, rest)) = line.split_once(';') else {
            return String::from_str(alloc, "?");
        };
        match kind {
            "selector" => self.selector(alloc, rest),
            "field" => self.field(alloc, rest),
            "reaches" => self.reaches(alloc, rest),
            _ => String::from_str(alloc, "?"),
        }
    }

    // What a selector reads to.
    fn selector(&self, alloc: Global, text: &str) -> Result<String, AllocError> {
        let text = unescaped(alloc, text)?;
        let read = read_selector(alloc, text.as_str(), &self.scope)?;
        self.spaces.shown(alloc, read)
    }

    // What a field reads to.
    fn field(&self, alloc: Global, text: &str) -> Result<String, AllocError> {
        let text = unescaped(alloc, text)?;
        let read = read_field(alloc, text.as_str(), &self.scope)?;
        self.spaces.shown(alloc, read)
    }

    // Whether a field reaches the node at the end of a way: `NAME NAME @NAME`.
    fn reaches(&mut self, alloc: Global, rest: &str) -> Result<String, AllocError> {
        let Some((text, way)) = rest.split_once(';') else {
            return String::from_str(alloc, "?");
        };
        match read_field(alloc, text, &self.scope)? {
            Ok(paths) => String::from_str(alloc, self.reached(alloc, &paths, way)?),
            Err(_) => String::from_str(alloc, "?"),
        }
    }

    fn reached(
        &mut self,
        alloc: Global,
        paths: &Paths,
        way: &str,
    ) -> Result<&'static str, AllocError> {
        let (front, last) = match way.split_once('@') {
            Some((front, last)) => (front, Some(last)),
            None => (way, None),
        };
        let words: Vec<&str> = front.split(' ').collect(alloc)?;
        self.intern_words(words.as_slice())?;
        if let Some(word) = last {
            self.intern_word(word)?;
        }
        let elements = self.elements(alloc, words.as_slice())?;
        let attribute = match last {
            Some(word) => self.name(word),
            None => None,
        };
        let reached = is_reached(paths, &self.names, elements.as_slice(), attribute);
        Ok(if reached { "yes" } else { "no" })
    }

    // Gives numbers to the names of these words.
    fn intern_words(&mut self, words: &[&str]) -> Result<(), AllocError> {
        for word in words {
            self.intern_word(word)?;
        }
        Ok(())
    }

    // Gives a number to the name of a word: without a prefix it has no namespace.
    fn intern_word(&mut self, word: &str) -> Result<(), AllocError> {
        let (space, local) = match word.split_once(':') {
            None => ("", word),
            Some(("p", local)) => ("urn:p", local),
            Some(("q", local)) => ("urn:q", local),
            Some((_, local)) => ("urn:d", local),
        };
        let ns = self.names.namespace_id(space)?;
        self.names.intern(ns, local)?;
        Ok(())
    }

    // The names of these words, but for empty ones.
    fn elements(&self, alloc: Global, words: &[&str]) -> Result<Vec<NameId>, AllocError>
        ensures { IfOk result (λ elements. All (λ name. name < length self.now.names.names) elements.items) }
    {
        let mut elements = Vec::new(alloc);
        for word in words {
            if word.is_empty() {
                continue;
            }
            if let Some(name) = self.name(word) {
                elements.push(name)?;
            }
        }
        Ok(elements)
    }

    // The name of a word that has a number.
    fn name(&self, word: &str) -> Option<NameId>
        ensures { IfSome result (λ name. name < length self.now.names.names) }
    {
        match word.split_once(':') {
            None => self.names.lookup(NsId::ABSENT, word),
            Some(("p", local)) => self.names.lookup(self.spaces.p, local),
            Some(("q", local)) => self.names.lookup(self.spaces.q, local),
            Some((_, local)) => self.names.lookup(self.spaces.default, local),
        }
    }
}

// A text with its line feeds.
fn unescaped(alloc: Global, text: &str) -> Result<String, AllocError> {
    let mut out = String::new(alloc);
    for (index, piece) in text.split('_').enumerate() {
        if index > 0 {
            out.push('\n')?;
        }
        out.push_str(piece)?;
    }
    Ok(out)
}

impl Spaces {
    // What was read.
    fn shown(&self, alloc: Global, read: Result<Paths, XPathFault>) -> Result<String, AllocError> {
        match read {
            Ok(paths) => self.shown_paths(alloc, &paths),
            Err(XPathFault::Syntax) => String::from_str(alloc, "Syntax"),
            Err(XPathFault::Unbound) => String::from_str(alloc, "Unbound"),
        }
    }

    fn shown_paths(&self, alloc: Global, paths: &Paths) -> Result<String, AllocError> {
        let mut out = String::new(alloc);
        for (index, path) in paths.as_slice().iter().enumerate() {
            if index > 0 {
                out.push('|')?;
            }
            self.show_path(&mut out, path)?;
        }
        Ok(out)
    }

    fn show_path(&self, out: &mut String, path: &Path) -> Result<(), AllocError> {
        if path.anywhere {
            out.push_str(".//")?;
        }
        for (index, step) in path.steps.as_slice().iter().enumerate() {
            if index > 0 {
                out.push('/')?;
            }
            match step {
                Step::Itself => out.push('.')?,
                Step::Child(test) => self.show_test(out, test)?,
            }
        }
        if let Some(test) = &path.attribute {
            if !path.steps.is_empty() {
                out.push('/')?;
            }
            out.push('@')?;
            self.show_test(out, test)?;
        }
        Ok(())
    }

    fn show_test(&self, out: &mut String, test: &NameTest) -> Result<(), AllocError> {
        match test {
            NameTest::Any => out.push('*'),
            NameTest::Namespace(ns) => {
                out.push_str(self.braced(*ns))?;
                out.push('*')
            }
            NameTest::Name(ns, local) => {
                out.push_str(self.braced(*ns))?;
                out.push_str(local.as_str())
            }
        }
    }

    // A namespace in braces; nothing for the absent one.
    fn braced(&self, ns: NsId) -> &'static str {
        if ns == NsId::ABSENT {
            ""
        } else if ns == NsId::XML {
            "{http://www.w3.org/XML/1998/namespace}"
        } else if ns == self.p {
            "{urn:p}"
        } else if ns == self.q {
            "{urn:q}"
        } else {
            "{?}"
        }
    }
}
