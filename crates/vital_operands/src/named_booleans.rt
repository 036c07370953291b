//! Names as truth values and as texts.

ghost use Rattle.std.specs.Prelude.{◌≡◌};
ghost use Rattle.vital_declarations.specs.Operands as kinds;
ghost use Rattle.vital_operands.specs.Named as spec;
ghost use Rattle.vital_operands.specs.Seen.{lent};

use crate::position::{Position, Standing};
use crate::tree::{BooleanExpr, Control};
use vital_declarations::{DeclaredType, OperandKind};
use vital_names::{Predeclared, TypeName};
use vital_nodes::Identifier;

/// The control of a name.
fn control_named(name: &[u8]) -> Option<Control>
    ensures { result ≡ spec.control_named name.now }
{
    if name == b"timingcheckson".as_slice() {
        Some(Control::TimingChecksOn)
    } else if name == b"xon".as_slice() {
        Some(Control::XOn)
    } else if name == b"msgon".as_slice() {
        Some(Control::MsgOn)
    } else {
        None
    }
}

impl<'a> Position<'a> {
    /// What is declared for an identifier, as a truth value.
    fn boolean_of_kind(&self, identifier: &Identifier, kind: OperandKind<'_>) -> Option<BooleanExpr>
        ensures { result ≡ spec.boolean_of_kind (lent self.now) identifier.now.name (kinds.lent kind.entry) }
    {
        match kind {
            OperandKind::Generic(DeclaredType::Plain(TypeName::Boolean)) if self.has_generics() => {
                match control_named(identifier.name.as_slice()) {
                    Some(control) => Some(BooleanExpr::Control(control)),
                    None => None,
                }
            }
            _ => None,
        }
    }

    /// A truth value that is a name alone.
    pub fn boolean_named(&self, identifier: &Identifier) -> Option<BooleanExpr>
        ensures { result ≡ spec.boolean_named (lent self.now) identifier.now }
    {
        match self.standing(identifier) {
            Standing::Operand(kind) => self.boolean_of_kind(identifier, kind),
            Standing::Word(Predeclared::Boolean(value)) => Some(BooleanExpr::Literal(value)),
            _ => None,
        }
    }

    /// Whether a name is the generic InstancePath.
    pub fn is_text_named(&self, identifier: &Identifier) -> bool
        ensures { result ≡ spec.is_text_named (lent self.now) identifier.now }
    {
        match self.standing(identifier) {
            Standing::Operand(OperandKind::Generic(DeclaredType::Plain(TypeName::Text))) => {
                self.has_generics() && identifier.name.as_slice() == b"instancepath".as_slice()
            }
            _ => false,
        }
    }
}
