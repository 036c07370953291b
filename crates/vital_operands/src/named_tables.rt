//! Names as tables.

ghost use Rattle.std.specs.Prelude.{◌≡◌, IfOk};
ghost use Rattle.vital_declarations.specs.Types as types;
ghost use Rattle.vital_operands.specs.Named as spec;
ghost use Rattle.vital_operands.specs.Seen.{lent};

use crate::named_levels::cell_constant;
use crate::position::Position;
use crate::tree::ConstantName;
use std::alloc::{AllocError, Global};
use vital_declarations::{DeclaredType, TableType, columns_of, type_of};
use vital_names::{Declared, LibraryNames, Meaning, TypeName};
use vital_nodes::{Identifier, Object, is_constant, listed_items};

/// Whether a type is one of tables of a kind, without ranges.
fn is_plain_table(kind: TableType, type_name: TypeName) -> bool
    ensures { result ≡ spec.is_plain_table kind type_name }
{
    match kind {
        TableType::Truth => type_name == TypeName::TruthTable,
        TableType::State => type_name == TypeName::StateTable,
    }
}

/// Whether a type is one of tables of a kind, with ranges or without.
fn is_table_type(kind: TableType, declared: DeclaredType<'_>) -> bool
    ensures { result ≡ spec.is_table_type kind (types.lent declared.entry) }
{
    match declared {
        DeclaredType::Plain(type_name) => is_plain_table(kind, type_name),
        DeclaredType::Table(table, _, _) => table == kind,
        DeclaredType::Vector(_) | DeclaredType::Other => false,
    }
}

/// How many columns the value of a constant has: the items of its first row.
fn columns_of_value(object: &Object) -> usize
    ensures { result ≡ spec.columns_of_value object.now }
{
    match &object.parts.get().value {
        Some(value) => match listed_items(value) {
            Some(rows) => columns_of(rows),
            None => 0,
        },
        None => 0,
    }
}

/// Whether an object is a constant of tables of a kind.
pub fn is_table(library: &LibraryNames<'_>, kind: TableType, object: &Object) -> bool
    ensures { result ≡ spec.is_table kind object.now }
{
    is_constant(object) && is_table_type(kind, type_of(library, &object.parts.get().subtype))
}

impl<'a> Position<'a> {
    /// The constant of tables of a kind of a name, and how many columns it has.
    fn table_of_kind(
        &self,
        alloc: Global,
        kind: TableType,
        identifier: &Identifier,
    ) -> Result<Option<(ConstantName, usize)>, AllocError>
        ensures { IfOk result (λ table. table ≡ spec.table_of_kind kind (lent self.now) identifier.now) }
    {
        match self.meaning(identifier) {
            Some(Meaning::Declared(Declared::Object(object)))
                if is_table(self.library(), kind, object) => {
                Ok(Some((
                    cell_constant(alloc, &object.identifier)?,
                    columns_of_value(object),
                )))
            }
            Some(Meaning::Constant(constant)) if is_table(self.library(), kind, constant.object) =>
                {
                    Ok(Some((
                        ConstantName::Package(constant.number),
                        columns_of_value(constant.object),
                    )))
                }
            _ => Ok(None),
        }
    }

    /// The constant of VitalTruthTableType of a name, and how many columns it has.
    pub fn table_named(
        &self,
        alloc: Global,
        identifier: &Identifier,
    ) -> Result<Option<(ConstantName, usize)>, AllocError>
        ensures { IfOk result (λ table. table ≡ spec.table_named (lent self.now) identifier.now) }
    {
        self.table_of_kind(alloc, TableType::Truth, identifier)
    }

    /// The constant of VitalStateTableType of a name, and how many columns it has.
    pub fn state_table_named(
        &self,
        alloc: Global,
        identifier: &Identifier,
    ) -> Result<Option<(ConstantName, usize)>, AllocError>
        ensures { IfOk result (λ table. table ≡ spec.state_table_named (lent self.now) identifier.now) }
    {
        self.table_of_kind(alloc, TableType::State, identifier)
    }
}
