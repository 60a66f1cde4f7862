// The parameters of a query's text.
ghost use Rattle.std.specs.Prelude.{◌≡◌, ◌++◌, [], ◌∷◌, IfOk, OnOk, OnErr, option_map};
ghost use Rattle.kms_page.specs.Parameters as spec;
ghost use Rattle.kms_page.specs.Query.{others_of};

use crate::rules::{PAGING, field_named};
use form_urlencoded::parse;
use kms_world::{NoMemory, Text};
use std::alloc::Global;
use std::marker::Model;

/// Parameters, each a name and a value, in their order. Contracts see the list.
#[derive(Drop, Debug)]
pub struct Parameters {
    items: Vec<(Text, Text)>,
}

impl Model for Parameters {
    ghost use Rattle.std.specs.Prelude.{List, ℕ};

    ghost Value = { List (List ℕ × List ℕ) };

    ghost view = { λ p. p.items.items };
}

impl Parameters {
    /// No parameters; takes no memory.
    pub fn new(alloc: Global) -> Parameters
        ensures { result ≡ [] }
    {
        Parameters {
            items: Vec::new(alloc),
        }
    }

    /// Puts a parameter behind the others. After `NoMemory` they are as before.
    pub fn push(&mut self, parameter: (Text, Text)) -> Result<(), NoMemory>
        ensures ok { OnOk result (self.new ≡ self.old ++ parameter ∷ []) }
        ensures err { OnErr result (self.new ≡ self.old) }
    {
        self.items.push(parameter)?;
        Ok(())
    }

    /// The parameters in their order.
    pub fn as_slice(&self) -> &[(Text, Text)]
        ensures { result.now ≡ self.now }
    {
        &self.items
    }
}

// The parameters of a query's text, percent-decoded. What isn't UTF-8 becomes U+FFFD.
pub fn read(alloc: Global, text: &[u8]) -> Result<Parameters, NoMemory>
    ensures { IfOk result (λ parameters. parameters ≡ spec.parameters_of text.now) }
{
    let mut parameters = Parameters::new(alloc);
    for pair in parse(alloc, text).into_owned() {
        match pair {
            Ok((name, value)) => {
                let name = Text::of(alloc, name.as_str())?;
                let value = Text::of(alloc, value.as_str())?;
                parameters.push((name, value))?;
            }
            Err(_) => return Err(NoMemory),
        }
    }
    Ok(parameters)
}

// The value of the first parameter of this name.
pub fn value_of<'a>(parameters: &'a [(Text, Text)], name: &str) -> Option<&'a str>
    ensures { option_map (λ value. value.now) result ≡ spec.value_of name.now parameters.entry.now }
{
    parameters
        .iter()
        .find(|parameter| parameter.0.as_str() == name)
        .map(|parameter| parameter.1.as_str())
}

// All parameters but the limit and the offset.
pub fn others(alloc: Global, parameters: &[(Text, Text)]) -> Result<Parameters, NoMemory>
    ensures { IfOk result (λ others. others ≡ others_of parameters.now) }
{
    let mut others = Parameters::new(alloc);
    for parameter in parameters {
        if field_named(&PAGING, parameter.0.as_str()).is_none() {
            others.push((parameter.0.clone()?, parameter.1.clone()?))?;
        }
    }
    Ok(others)
}
