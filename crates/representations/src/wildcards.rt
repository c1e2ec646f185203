ghost use Rattle.std.specs.Prelude.{◌≡◌, map, IfOk, OnOk};
ghost use Rattle.xs_names.specs.Names.{Grown};
ghost use Rattle.representations.specs.Forms.{token_table, tokens_table, spaces_table};
ghost use Rattle.representations.specs.Lasting.{IsLasting};
ghost use Rattle.representations.specs.Wildcards.{KnowsTarget};
ghost use Rattle.representations.specs.Wildcards as spec;

use crate::Reading;
use schema_shape::WildcardForm;
use schema_values::{SpaceToken, Spaces};
use std::alloc::{AllocError, Global};
use xs_components::{NsConstraint, NsIdList, Wildcard};
use xs_lists::Listed;
use xs_names::{Names, NsId};

impl Reading {
    // The namespace that a word in the list of a wildcard means.
    fn token(&self, names: &mut Names, token: &SpaceToken) -> Result<NsId, AllocError>
        requires { KnowsTarget names.old self.now }
        ensures table { OnOk result (names.new ≡ token_table token.now names.old) }
        ensures space { IfOk result (IsLasting names.new (λ t. spec.token_space t self.now.naming token.now)) }
        ensures grown { Grown names.old names.new }
    {
        match token {
            SpaceToken::Target => Ok(self.target),
            SpaceToken::Local => Ok(NsId::ABSENT),
            SpaceToken::Named(space) => {
                let ns = names.namespace_id(space.as_str())?;
                Ok(ns)
            }
        }
    }

    // The namespaces that words in the list of a wildcard mean.
    fn tokens(
        &self,
        alloc: Global,
        names: &mut Names,
        tokens: &[SpaceToken],
    ) -> Result<NsIdList, AllocError>
        requires { KnowsTarget names.old self.now }
        ensures table { OnOk result (names.new ≡ tokens_table tokens.now names.old) }
        ensures spaces { IfOk result (IsLasting names.new (λ t. map (spec.token_space t self.now.naming) tokens.now)) }
        ensures grown { Grown names.old names.new }
    {
        let mut listed = Listed::new(alloc);
        for token in tokens {
            listed.push(self.token(names, token)?)?;
        }
        Ok(listed)
    }

    // The namespaces that a wildcard admits.
    fn constraint(
        &self,
        alloc: Global,
        names: &mut Names,
        spaces: &Spaces,
    ) -> Result<NsConstraint, AllocError>
        requires { KnowsTarget names.old self.now }
        ensures table { OnOk result (names.new ≡ spaces_table spaces.now names.old) }
        ensures constraint { IfOk result (IsLasting names.new (λ t. spec.constraint_of t self.now.naming spaces.now)) }
        ensures grown { Grown names.old names.new }
    {
        match spaces {
            Spaces::Any => Ok(NsConstraint::Any),
            Spaces::Other => Ok(NsConstraint::Not(self.target)),
            Spaces::These(tokens) => {
                Ok(NsConstraint::In(self.tokens(alloc, names, tokens.as_slice())?))
            }
        }
    }

    /// A wildcard.
    pub(crate) fn wildcard(
        &self,
        alloc: Global,
        names: &mut Names,
        form: &WildcardForm,
    ) -> Result<Wildcard, AllocError>
        requires { KnowsTarget names.old self.now }
        ensures table { OnOk result (names.new ≡ spaces_table form.now.spaces names.old) }
        ensures wildcard { IfOk result (IsLasting names.new (λ t. spec.wildcard_of t self.now.naming form.now)) }
        ensures grown { Grown names.old names.new }
    {
        Ok(Wildcard {
            namespaces: self.constraint(alloc, names, &form.spaces)?,
            process: form.process,
        })
    }
}
