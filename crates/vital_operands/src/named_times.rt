//! Names as times and as delays.

ghost use Rattle.std.specs.Prelude.{◌≡◌, IfOk};
ghost use Rattle.vital_declarations.specs.Operands as kinds;
ghost use Rattle.vital_declarations.specs.Types as types;
ghost use Rattle.vital_operands.specs.Named as spec;
ghost use Rattle.vital_operands.specs.Seen.{lent};

use crate::named_levels::{cell_constant, name_of};
use crate::position::{Position, Standing};
use crate::tree::{ConstantName, DelayExpr, TimeExpr};
use std::alloc::{AllocError, Global};
use vital_base::Time;
use vital_declarations::{DeclaredType, OperandKind, type_of};
use vital_names::{Predeclared, TypeName};
use vital_nodes::Identifier;
use vital_timing::{Delay, DelayType};

/// Whether a type is this type of delays.
fn is_delay(asked: DelayType, declared: DeclaredType<'_>) -> bool
    ensures { result ≡ spec.is_delay asked (types.lent declared.entry) }
{
    match declared {
        DeclaredType::Plain(TypeName::Delay(delay_type)) => asked == delay_type,
        _ => false,
    }
}

/// Whether a type is TIME.
fn is_time(declared: DeclaredType<'_>) -> bool
    ensures { result ≡ spec.is_time (types.lent declared.entry) }
{
    matches!(declared, DeclaredType::Plain(TypeName::Time))
}

/// The delay of a type whose times are all this one.
pub fn even_delay(asked: DelayType, time: Time) -> Delay
    ensures { result ≡ spec.even_delay asked time }
{
    match asked {
        DelayType::One => Delay::One(time),
        DelayType::Two => Delay::Two {
            tr01: time,
            tr10: time,
        },
        DelayType::Six => Delay::Six {
            tr01: time,
            tr10: time,
            tr0z: time,
            trz1: time,
            tr1z: time,
            trz0: time,
        },
    }
}

impl<'a> Position<'a> {
    /// What is declared for an identifier, as a time.
    fn time_of_kind(
        &self,
        alloc: Global,
        identifier: &Identifier,
        kind: OperandKind<'_>,
    ) -> Result<Option<TimeExpr>, AllocError>
        ensures { IfOk result (λ time. time ≡ spec.time_of_kind (lent self.now) identifier.now.name (kinds.lent kind.entry)) }
    {
        match kind {
            OperandKind::Generic(declared)
                if self.has_generics() && is_delay(DelayType::One, declared) => {
                Ok(Some(TimeExpr::Generic(name_of(alloc, identifier)?)))
            }
            OperandKind::Constant(declared) if is_time(declared) => {
                Ok(Some(TimeExpr::Constant(cell_constant(alloc, identifier)?)))
            }
            _ => Ok(None),
        }
    }

    /// A time that is a name alone.
    pub fn time_named(
        &self,
        alloc: Global,
        identifier: &Identifier,
    ) -> Result<Option<TimeExpr>, AllocError>
        ensures { IfOk result (λ time. time ≡ spec.time_named (lent self.now) identifier.now) }
    {
        match self.standing(identifier) {
            Standing::Operand(kind) => self.time_of_kind(alloc, identifier, kind),
            Standing::Constant(constant)
                if is_time(type_of(self.library(), &constant.object.parts.get().subtype)) => {
                Ok(Some(TimeExpr::Constant(ConstantName::Package(constant.number))))
            }
            Standing::Word(Predeclared::ZeroDelay(DelayType::One)) => {
                Ok(Some(TimeExpr::Literal(0)))
            }
            _ => Ok(None),
        }
    }

    /// What is declared for an identifier, as a delay of a type.
    fn delay_of_kind(
        &self,
        alloc: Global,
        asked: DelayType,
        identifier: &Identifier,
        kind: OperandKind<'_>,
    ) -> Result<Option<DelayExpr>, AllocError>
        ensures { IfOk result (λ delay. delay ≡ spec.delay_of_kind (lent self.now) asked identifier.now.name (kinds.lent kind.entry)) }
    {
        match kind {
            OperandKind::Generic(declared) if self.has_generics() && is_delay(asked, declared) => {
                Ok(Some(DelayExpr::Generic(name_of(alloc, identifier)?)))
            }
            OperandKind::Constant(declared) if is_delay(asked, declared) => {
                Ok(Some(DelayExpr::Constant(cell_constant(alloc, identifier)?)))
            }
            _ => Ok(None),
        }
    }

    /// A delay of a type that is a name alone.
    pub fn delay_named(
        &self,
        alloc: Global,
        asked: DelayType,
        identifier: &Identifier,
    ) -> Result<Option<DelayExpr>, AllocError>
        ensures { IfOk result (λ delay. delay ≡ spec.delay_named (lent self.now) asked identifier.now) }
    {
        match self.standing(identifier) {
            Standing::Operand(kind) => self.delay_of_kind(alloc, asked, identifier, kind),
            Standing::Constant(constant)
                if is_delay(
                    asked,
                    type_of(self.library(), &constant.object.parts.get().subtype),
                ) => { Ok(Some(DelayExpr::Constant(ConstantName::Package(constant.number)))) }
            Standing::Word(Predeclared::ZeroDelay(delay_type)) if asked == delay_type => {
                Ok(Some(DelayExpr::Literal(even_delay(asked, 0))))
            }
            _ => Ok(None),
        }
    }
}
