//! What is declared, as an operand of expressions.

ghost use Rattle.std.specs.Prelude.{◌≡◌};
ghost use Rattle.vital_declarations.specs.Operands as spec;
ghost use Rattle.vital_names.specs.Declarations as declarations;
ghost use Rattle.vital_names.specs.Sites as sites;

use crate::alias::{AliasTarget, alias_target, is_of_levels};
use crate::declared_type::{DeclaredType, type_of};
use crate::variable::{VariableType, variable_type};
use vital_names::{CellNames, Declared, LibraryNames, Site};
use vital_nodes::{Mode, Object, ObjectClass};

/// What is declared, as an operand.
#[derive(Clone, Copy)]
pub enum OperandKind<'a> {
    /// An internal signal: a signal of type STD_ULOGIC or STD_LOGIC.
    Signal,
    /// A port, with its mode and its type, which may be none that Level 1 allows.
    Port(Mode, DeclaredType<'a>),
    Variable(VariableType<'a>),
    /// A constant of the cell.
    Constant(DeclaredType<'a>),
    Generic(DeclaredType<'a>),
    Alias(AliasTarget<'a>),
    /// A signal or a variable of a type that it may not have.
    Other,
}

/// What an object is as an operand.
fn object_kind<'a>(library: &LibraryNames<'_>, object: &'a Object) -> OperandKind<'a>
    ensures { spec.lent result ≡ spec.object_kind object.now.«class» object.now }
{
    match object.class {
        ObjectClass::Constant => OperandKind::Constant(type_of(
            library,
            &object.parts.get().subtype,
        )),
        ObjectClass::Signal if is_of_levels(library, object) => OperandKind::Signal,
        ObjectClass::Signal => OperandKind::Other,
        ObjectClass::Variable => match variable_type(library, &object.parts.get().subtype) {
            Some(variable) => OperandKind::Variable(variable),
            None => OperandKind::Other,
        },
    }
}

/// What is declared that a name means at a site of a cell. An alias is looked up where it stands.
pub fn operand_kind<'a>(
    names: &CellNames<'a>,
    site: &Site<'a>,
    declared: Declared<'a>,
) -> OperandKind<'a>
    ensures { spec.lent result ≡ spec.operand_kind names.now (sites.lent site.now) (declarations.lent declared.entry) }
{
    let library = names.library();
    match declared {
        Declared::Generic(generic) => {
            OperandKind::Generic(type_of(library, &generic.parts.get().subtype))
        }
        Declared::Port(port) => {
            let parts = port.parts.get();
            OperandKind::Port(parts.mode, type_of(library, &parts.subtype))
        }
        Declared::Object(object) => object_kind(library, object),
        Declared::Alias(alias) => OperandKind::Alias(alias_target(names, site, alias)),
    }
}
