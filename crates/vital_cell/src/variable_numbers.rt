//! The variables of a process with their numbers.

ghost use Rattle.std.specs.Prelude.{◌≡◌, map, IfOk};
ghost use Rattle.vital_typed_cells.specs.Bits as spec;

use crate::name_numbers::NameNumbers;
use std::alloc::{AllocError, Global};
use std::marker::Model;
use vital_objects::Variable;

/// The variables of a process, each with its number in the order of their declarations, from 0. Contracts see it as the list of them.
#[derive(Drop)]
pub struct VariableNumbers<'a> {
    variables: &'a [Variable],
    names: NameNumbers<'a>,
}

impl<'a> Model for VariableNumbers<'a> {
    ghost use Rattle.std.specs.Prelude.{◌≡◌, List, map};
    ghost use Rattle.std.specs.Coded.{codes};
    ghost use Rattle.vital_objects.specs.contracts.variable.Variable as variable;
    ghost use Rattle.vital_objects.specs.declared.variable.Variable.{Variable};

    ghost Value = { List Variable };

    ghost coded = { Prim.hlevel (codes, variable.the_row.coded) };

    ghost view = { λ v. v.variables.now };

    ghost invariant = { λ v. v.names ≡ map (λ variable. variable.name) v.variables.now };
}

/// The names of variables, in order.
fn names_of<'a>(alloc: Global, variables: &'a [Variable]) -> Result<Vec<&'a [u8]>, AllocError>
    ensures { IfOk result (λ names. map (λ name. name.now) names.items ≡ map (λ variable. variable.name) variables.now) }
{
    let mut names: Vec<&'a [u8]> = Vec::new(alloc);
    for variable in variables {
        names.push(variable.name.as_slice())?;
    }
    Ok(names)
}

impl<'a> VariableNumbers<'a> {
    /// These variables. It takes time and memory in proportion to them.
    pub fn new(alloc: Global, variables: &'a [Variable]) -> Result<VariableNumbers<'a>, AllocError>
        ensures { IfOk result (λ numbers. numbers ≡ variables.now) }
    {
        let names = names_of(alloc, variables)?;
        Ok(VariableNumbers {
            variables,
            names: NameNumbers::new(alloc, names)?,
        })
    }

    /// The number of the first variable of a name.
    pub fn number(&self, name: &[u8]) -> Option<usize>
        ensures { result ≡ spec.number_of (map (λ variable. variable.name) self.now) name.now }
    {
        self.names.number(name)
    }
}
