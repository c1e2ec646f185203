ghost use Rattle.std.specs.Prelude.{◌≡◌, ◌≢◌, ℕ, ◌<◌, ◌↔◌, [], Some, length, slice_get, IsNone, IfSome, IfNone, IfOk, OnOk, OnErr};
ghost use Rattle.std.specs.Option.{option_map};
ghost use Rattle.xs_names.specs.Names.{no_names, absent_space, xml_space, xml_name, space_number, name_number, with_space, with_name, space_of, local_of, IsSound, Grown};

use crate::numbered::{NumberedPairs, NumberedTexts, Pair};
use crate::{NameId, NsId};
use std::alloc::{AllocError, Global};
use std::marker::Model;

/// The namespace that the prefix `xml` is bound to (Namespaces in XML 1.0, 3).
pub const XML_NAMESPACE: &str = "http://www.w3.org/XML/1998/namespace";

/// The namespace that the prefix `xmlns` is bound to (Namespaces in XML 1.0, 3).
pub const XMLNS_NAMESPACE: &str = "http://www.w3.org/2000/xmlns/";

/// Namespaces, and names in them, by number. Numbers are given in the order of coming and never change.
///
/// The empty namespace name is that of the absent namespace.
pub struct Names {
    spaces: NumberedTexts,
    locals: NumberedTexts,
    pairs: NumberedPairs,
}

impl Model for Names {
    ghost use Rattle.std.specs.Prelude.{map};
    ghost use Rattle.xs_names.specs.Names.{NameTable, IsKept, name_in};

    ghost Value = { NameTable };

    ghost view = { λ n. record { spaces = n.spaces; names = map (name_in n.locals) n.pairs } };

    ghost invariant = { λ n. IsKept n.spaces n.locals n.pairs };
}

impl Names {
    /// The absent namespace, the namespace of the prefix `xml`, and no names.
    pub fn new(alloc: Global) -> Result<Self, AllocError>
        ensures table { IfOk result (λ names. names ≡ no_names) }
        ensures sound { IfOk result IsSound }
    {
        let mut spaces = NumberedTexts::new(alloc);
        spaces.insert("")?;
        spaces.insert(XML_NAMESPACE)?;
        Ok(Names {
            spaces,
            locals: NumberedTexts::new(alloc),
            pairs: NumberedPairs::new(alloc),
        })
    }

    /// The number of the namespace of this name, which is the next number where the namespace was not there.
    pub fn namespace_id(&mut self, name: &str) -> Result<NsId, AllocError>
        ensures number { IfOk result (λ ns. space_number self.new name.now ≡ Some ns) }
        ensures table { OnOk result (self.new ≡ with_space self.old name.now) }
        ensures err { OnErr result (self.new ≡ self.old) }

        ensures within { IfOk result (λ ns. ns < length self.new.spaces) }
        ensures absent { IfOk result (λ ns. (ns ≡ absent_space) ↔ (name.now ≡ [])) }
        ensures xml { IfOk result (λ ns. (ns ≡ xml_space) ↔ (name.now ≡ xml_name)) }
        ensures grown { Grown self.old self.new }
        ensures sound { IsSound self.new }
    {
        let spaces = &mut self.spaces;
        if name.is_empty() {
            return Ok(NsId::ABSENT);
        }
        Ok(NsId {
            number: spaces.insert(name)?,
        })
    }

    /// The number of the name, which is the next number where the name was not there.
    pub fn intern(&mut self, ns: NsId, local: &str) -> Result<NameId, AllocError>
        requires { ns < length self.old.spaces }
        ensures number { IfOk result (λ name. name_number self.new ns local.now ≡ Some name) }
        ensures table { OnOk result (self.new ≡ with_name self.old ns local.now) }
        ensures err { OnErr result (self.new ≡ self.old) }

        ensures within { IfOk result (λ name. name < length self.new.names) }
        ensures grown { Grown self.old self.new }
        ensures sound { IsSound self.new }
    {
        let local = self.locals.insert(local)?;
        let number = self.pairs.insert(Pair {
            space: ns.number,
            local,
        })?;
        Ok(NameId { number })
    }

    /// The number of the name; `None` where it is not there. It takes no memory.
    pub fn lookup(&self, ns: NsId, local: &str) -> Option<NameId>
        ensures value { result ≡ name_number self.now ns local.now }

        ensures within { IfSome result (λ name. name < length self.now.names) }
        ensures found { IfSome result (λ name. slice_get self.now.names name ≡ Some (ns, local.now)) }
        ensures absent { IfNone result ((n : ℕ) → slice_get self.now.names n ≢ Some (ns, local.now)) }
        ensures sound { IsSound self.now }
    {
        let local = self.locals.find(local)?;
        let number = self.pairs.find(Pair {
            space: ns.number,
            local,
        })?;
        Some(NameId { number })
    }

    /// The local part of a name.
    pub fn local(&self, name: NameId) -> &str
        requires { name < length self.now.names }
        ensures text { result.now ≡ local_of self.now name }
        ensures sound { IsSound self.now }
    {
        let pair = self.pairs.get(name.number);
        self.locals.get(pair.local)
    }

    /// The namespace of a name.
    pub fn ns(&self, name: NameId) -> NsId
        requires { name < length self.now.names }
        ensures value { result ≡ space_of self.now name }
        ensures within { result < length self.now.spaces }
        ensures sound { IsSound self.now }
    {
        NsId {
            number: self.pairs.get(name.number).space,
        }
    }

    /// The name of a namespace; `None` for the absent namespace alone.
    pub fn ns_text(&self, ns: NsId) -> Option<&str>
        requires { ns < length self.now.spaces }
        ensures text { IfSome result (λ name. slice_get self.now.spaces ns ≡ Some name.now) }
        ensures absent { IsNone result ↔ (ns ≡ absent_space) }
        ensures sound { IsSound self.now }
    {
        if ns == NsId::ABSENT {
            None
        } else {
            Some(self.spaces.get(ns.number))
        }
    }
}

impl Drop for Names {
    fn drop(self) {
        let Names {
            spaces,
            locals,
            pairs,
        } = self;
        drop(spaces);
        drop(locals);
        drop(pairs);
    }
}
