//! Names as levels and as vectors of levels.

ghost use Rattle.std.specs.Prelude.{◌≡◌, IfOk};
ghost use Rattle.std.specs.Option.{option_and_then};
ghost use Rattle.vital_declarations.specs.Numbers.{in_word};
ghost use Rattle.vital_declarations.specs.Operands as kinds;
ghost use Rattle.vital_operands.specs.Named as spec;
ghost use Rattle.vital_operands.specs.Positions.{standing};
ghost use Rattle.vital_operands.specs.Seen.{lent, lent_standing};

use crate::position::{Position, Standing};
use crate::tree::{ConstantName, LevelExpr, VectorExpr};
use std::alloc::{AllocError, Global};
use vital_base::Name;
use vital_declarations::{
    AliasTarget, OperandKind, VariableType, is_level, is_of_levels, length, offset,
};
use vital_nodes::{Identifier, Mode};

/// The name of an identifier.
pub(crate) fn name_of(alloc: Global, identifier: &Identifier) -> Result<Name, AllocError>
    ensures { IfOk result (λ name. name ≡ identifier.now.name) }
{
    Ok(Name::new(Vec::from_slice(alloc, identifier.name.as_slice())?))
}

/// The constant of the cell of an identifier.
pub(crate) fn cell_constant(
    alloc: Global,
    identifier: &Identifier,
) -> Result<ConstantName, AllocError>
    ensures { IfOk result (λ constant. constant ≡ spec.cell_constant identifier.now) }
{
    Ok(ConstantName::Cell(name_of(alloc, identifier)?))
}

impl<'a> Position<'a> {
    /// What an alias names, as a level.
    fn level_of_target(
        &self,
        alloc: Global,
        target: AliasTarget<'_>,
    ) -> Result<Option<LevelExpr>, AllocError>
        ensures { IfOk result (λ level. level ≡ spec.level_of_target (lent self.now) (kinds.lent_target target.entry)) }
    {
        match target {
            AliasTarget::Variable(object) if self.changes() => {
                Ok(Some(LevelExpr::Variable(name_of(alloc, &object.identifier)?)))
            }
            AliasTarget::Element(object, offset) if self.changes() => {
                Ok(Some(LevelExpr::Element(name_of(alloc, &object.identifier)?, offset)))
            }
            AliasTarget::Constant(object) => {
                Ok(Some(LevelExpr::Constant(cell_constant(alloc, &object.identifier)?)))
            }
            AliasTarget::PackageConstant(constant) => Ok(Some(LevelExpr::Constant(
                ConstantName::Package(constant.number),
            ))),
            AliasTarget::Variable(_) | AliasTarget::Element(_, _) | AliasTarget::Other => Ok(None),
        }
    }

    /// What is declared for an identifier, as a level.
    fn level_of_kind(
        &self,
        alloc: Global,
        identifier: &Identifier,
        kind: OperandKind<'_>,
    ) -> Result<Option<LevelExpr>, AllocError>
        ensures { IfOk result (λ level. level ≡ spec.level_of_kind (lent self.now) identifier.now.name (kinds.lent kind.entry)) }
    {
        match kind {
            OperandKind::Signal if self.changes() => {
                Ok(Some(LevelExpr::Signal(name_of(alloc, identifier)?)))
            }
            OperandKind::Port(Mode::In | Mode::Inout, declared)
                if self.changes() && is_level(declared) => {
                Ok(Some(LevelExpr::Signal(name_of(alloc, identifier)?)))
            }
            OperandKind::Variable(VariableType::Level | VariableType::X01) if self.changes() => {
                Ok(Some(LevelExpr::Variable(name_of(alloc, identifier)?)))
            }
            OperandKind::Constant(declared) if is_level(declared) => {
                Ok(Some(LevelExpr::Constant(cell_constant(alloc, identifier)?)))
            }
            OperandKind::Alias(target) => self.level_of_target(alloc, target),
            _ => Ok(None),
        }
    }

    /// A level that is a name alone.
    pub fn level_named(
        &self,
        alloc: Global,
        identifier: &Identifier,
    ) -> Result<Option<LevelExpr>, AllocError>
        ensures { IfOk result (λ level. level ≡ spec.level_named (lent self.now) identifier.now) }
    {
        match self.standing(identifier) {
            Standing::Operand(kind) => self.level_of_kind(alloc, identifier, kind),
            Standing::Constant(constant) if is_of_levels(self.library(), constant.object) => Ok(
                Some(LevelExpr::Constant(ConstantName::Package(constant.number))),
            ),
            _ => Ok(None),
        }
    }

    /// How far an index is from the left bound of a vector variable, if it is in its range.
    pub fn offset_named(&self, identifier: &Identifier, index: &Name) -> Option<usize>
        ensures { result ≡ spec.offset_in_standing (standing (lent self.now) identifier.now) index.now }
    {
        offset_in_standing(self.standing(identifier), index)
    }

    /// How many elements a vector variable has.
    pub fn length_named(&self, identifier: &Identifier) -> Option<usize>
        ensures { result ≡ spec.length_of_standing (standing (lent self.now) identifier.now) }
    {
        length_of_standing(self.standing(identifier))
    }

    /// The element of a vector variable at a literal index in its range.
    pub fn element_named(
        &self,
        alloc: Global,
        identifier: &Identifier,
        index: &Name,
    ) -> Result<Option<LevelExpr>, AllocError>
        ensures { IfOk result (λ level. level ≡ spec.element_named (lent self.now) identifier.now index.now) }
    {
        if !self.changes() {
            return Ok(None);
        }
        match self.offset_named(identifier, index) {
            Some(offset) => Ok(Some(LevelExpr::Element(name_of(alloc, identifier)?, offset))),
            None => Ok(None),
        }
    }

    /// A vector variable.
    pub fn vector_named(
        &self,
        alloc: Global,
        identifier: &Identifier,
    ) -> Result<Option<VectorExpr>, AllocError>
        ensures { IfOk result (λ vector. vector ≡ spec.vector_named (lent self.now) identifier.now) }
    {
        if !self.changes() {
            return Ok(None);
        }
        match self.length_named(identifier) {
            Some(length) => Ok(Some(VectorExpr::Variable(name_of(alloc, identifier)?, length))),
            None => Ok(None),
        }
    }
}

/// How far an index is from the left bound of a vector variable, if it is in its range and a word holds the distance.
fn offset_in_standing(standing: Standing<'_>, index: &Name) -> Option<usize>
    ensures { result ≡ option_and_then in_word (spec.offset_in_standing (lent_standing standing.entry) index.now) }
{
    match standing {
        Standing::Operand(OperandKind::Variable(VariableType::Vector(bounds))) => {
            offset(bounds, index)
        }
        _ => None,
    }
}

/// How many elements a vector variable has, if a word holds the number.
fn length_of_standing(standing: Standing<'_>) -> Option<usize>
    ensures { result ≡ option_and_then in_word (spec.length_of_standing (lent_standing standing.entry)) }
{
    match standing {
        Standing::Operand(OperandKind::Variable(VariableType::Vector(bounds))) => length(bounds),
        _ => None,
    }
}
