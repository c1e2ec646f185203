use std::alloc::{AllocError, Global};
use xs_components::{NsConstraint, NsIdList};
use xs_names::{Names, NsId};

// The namespaces of the cases, beside the absent one: two that the constraints name, and one that none names.
#[derive(Drop)]
pub struct Spaces {
    a: NsId,
    b: NsId,
    other: NsId,
}

const WORDS: [&str; 4] = ["absent", "a", "b", "other"];

impl Spaces {
    pub fn new(alloc: Global) -> Result<Self, AllocError> {
        match Names::new(alloc) {
            Ok(mut names) => Spaces::named(&mut names),
            Err(error) => Err(error),
        }
    }

    fn named(names: &mut Names) -> Result<Self, AllocError> {
        Ok(Spaces {
            a: names.namespace_id("a")?,
            b: names.namespace_id("b")?,
            other: names.namespace_id("other")?,
        })
    }

    fn space(&self, word: &str) -> Option<NsId> {
        match word {
            "absent" => Some(NsId::ABSENT),
            "a" => Some(self.a),
            "b" => Some(self.b),
            "other" => Some(self.other),
            _ => None,
        }
    }

    // `any`, `not:WORD` or `list:WORD,WORD`.
    fn constraint(&self, alloc: Global, word: &str) -> Result<Option<NsConstraint>, AllocError> {
        if word == "any" {
            return Ok(Some(NsConstraint::Any));
        }
        if let Some(excluded) = word.strip_prefix("not:") {
            return Ok(self.space(excluded).map(|ns| NsConstraint::Not(ns)));
        }
        let Some(words) = word.strip_prefix("list:") else {
            return Ok(None);
        };
        let mut listed = NsIdList::new(alloc);
        self.list(&mut listed, words)?;
        Ok(Some(NsConstraint::In(listed)))
    }

    fn list(&self, listed: &mut NsIdList, words: &str) -> Result<(), AllocError> {
        for word in words.split(',') {
            if let Some(ns) = self.space(word) {
                listed.push(ns)?;
            }
        }
        Ok(())
    }

    // The words of the namespaces that are admitted.
    fn admitted(&self, alloc: Global, constraint: &NsConstraint) -> Result<String, AllocError> {
        let mut words = String::new(alloc);
        for word in WORDS {
            if self.is_admitted(constraint, word) {
                push_word(&mut words, word)?;
            }
        }
        if words.is_empty() {
            words.push_str("nothing")?;
        }
        Ok(words)
    }

    fn is_admitted(&self, constraint: &NsConstraint, word: &str) -> bool {
        match self.space(word) {
            Some(ns) => constraint.admits(ns),
            None => false,
        }
    }

    fn admitted_if_any(
        &self,
        alloc: Global,
        found: Option<NsConstraint>,
    ) -> Result<String, AllocError> {
        match found {
            Some(constraint) => self.admitted(alloc, &constraint),
            None => String::from_str(alloc, "no form"),
        }
    }
}

fn push_word(words: &mut String, word: &str) -> Result<(), AllocError> {
    if !words.is_empty() {
        words.push_str(" ")?;
    }
    words.push_str(word)
}

fn yes_or_no(alloc: Global, answer: bool) -> Result<String, AllocError> {
    String::from_str(alloc, if answer { "yes" } else { "no" })
}

// The answer of a case: two words with the name of the call between them.
pub fn answer(alloc: Global, spaces: &Spaces, line: &str) -> Result<String, AllocError> {
    let mut words = line.split(' ');
    let (Some(left), Some(call), Some(right)) = (words.next(), words.next(), words.next()) else {
        return String::from_str(alloc, "no case");
    };
    match spaces.constraint(alloc, left)? {
        Some(first) => called(alloc, spaces, &first, call, right),
        None => String::from_str(alloc, "no case"),
    }
}

fn called(
    alloc: Global,
    spaces: &Spaces,
    first: &NsConstraint,
    call: &str,
    right: &str,
) -> Result<String, AllocError> {
    if call == "admits" {
        return yes_or_no(alloc, spaces.is_admitted(first, right));
    }
    match spaces.constraint(alloc, right)? {
        Some(second) => joined(alloc, spaces, first, call, &second),
        None => String::from_str(alloc, "no case"),
    }
}

fn joined(
    alloc: Global,
    spaces: &Spaces,
    first: &NsConstraint,
    call: &str,
    second: &NsConstraint,
) -> Result<String, AllocError> {
    if call == "subset" {
        return yes_or_no(alloc, first.subset(second));
    }
    let found = if call == "intersect" {
        first.intersect(alloc, second)?
    } else {
        first.unite(alloc, second)?
    };
    spaces.admitted_if_any(alloc, found)
}
