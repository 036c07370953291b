//! Where expressions stand, and what names stand for there.

ghost use Rattle.std.specs.Prelude.{◌≡◌};
ghost use Rattle.std.specs.Option.{option_copied, option_map};
ghost use Rattle.vital_declarations.specs.Operands as kinds;
ghost use Rattle.vital_names.specs.Declarations as declarations;
ghost use Rattle.vital_names.specs.Meanings as meanings;
ghost use Rattle.vital_names.specs.Sites as sites;
ghost use Rattle.vital_operands.specs.Positions as spec;
ghost use Rattle.vital_operands.specs.Seen.{lent, lent_standing};

use vital_declarations::{OperandKind, operand_kind};
use vital_names::{
    CellNames, CellUnit, Declared, LibraryNames, Meaning, PackageConstant, Predeclared,
    ProcessNames, Site,
};
use vital_nodes::Identifier;

/// Where an expression stands: it says what its names mean, and which of them may be operands.
#[derive(Clone, Copy)]
pub enum Position<'a> {
    /// In a statement, of a process if it stands in one. Each name sees what stands before it.
    Statement(&'a CellNames<'a>, CellUnit, Option<&'a ProcessNames<'a>>),
    /// In the value of a constant, or in the default of a signal or a variable. Nothing that changes is an operand.
    Value(&'a CellNames<'a>, Site<'a>),
    /// In the default of a generic or a port. Nothing that changes and no generic is an operand.
    Interface(&'a CellNames<'a>, Site<'a>),
    /// In the value of the constant of a number among those of all packages of a library.
    Package(&'a LibraryNames<'a>, usize),
}

/// What a name stands for.
#[derive(Clone, Copy)]
pub enum Standing<'a> {
    Operand(OperandKind<'a>),
    Constant(PackageConstant<'a>),
    Word(Predeclared),
    Nothing,
}

/// The site of a name in a statement.
fn site_of<'a>(
    unit: CellUnit,
    process: Option<&'a ProcessNames<'a>>,
    identifier: &Identifier,
) -> Site<'a>
    ensures { sites.lent result ≡ spec.site_of unit (option_copied process.entry) identifier.now }
{
    Site {
        unit,
        process,
        viewpoint: identifier.place,
    }
}

impl<'a> Position<'a> {
    /// The library of the names.
    pub fn library(&self) -> &'a LibraryNames<'a>
        ensures { result.now ≡ spec.files_of (lent self.now) }
    {
        match self {
            Position::Statement(names, _, _)
            | Position::Value(names, _)
            | Position::Interface(names, _) => names.library(),
            Position::Package(library, _) => library,
        }
    }

    /// What a name means here.
    pub fn meaning(&self, identifier: &Identifier) -> Option<Meaning<'a>>
        ensures { option_map meanings.lent result ≡ spec.meaning_at (lent self.now) identifier.now }
    {
        let name = identifier.name.as_slice();
        match self {
            Position::Statement(names, unit, process) => {
                names.meaning(name, &site_of(*unit, *process, identifier))
            }
            Position::Value(names, site) | Position::Interface(names, site) => {
                names.meaning(name, site)
            }
            Position::Package(library, number) => library.meaning_in_value(name, *number),
        }
    }

    /// What is declared, as an operand here.
    fn kind(&self, identifier: &Identifier, declared: Declared<'a>) -> OperandKind<'a>
        ensures { kinds.lent result ≡ spec.kind_at (lent self.now) identifier.now (declarations.lent declared.entry) }
    {
        match self {
            Position::Statement(names, unit, process) => {
                let site = site_of(*unit, *process, identifier);
                operand_kind(names, &site, declared)
            }
            Position::Value(names, site) | Position::Interface(names, site) => {
                operand_kind(names, site, declared)
            }
            Position::Package(_, _) => OperandKind::Other,
        }
    }

    /// What a name stands for here.
    pub fn standing(&self, identifier: &Identifier) -> Standing<'a>
        ensures { lent_standing result ≡ spec.standing (lent self.now) identifier.now }
    {
        match self.meaning(identifier) {
            Some(Meaning::Declared(declared)) => {
                Standing::Operand(self.kind(identifier, declared))
            }
            Some(Meaning::Constant(constant)) => Standing::Constant(constant),
            Some(Meaning::Predeclared(predeclared)) => Standing::Word(predeclared),
            None => Standing::Nothing,
        }
    }

    /// Whether signals, ports, variables, their elements and aliases of these are operands.
    pub fn changes(&self) -> bool
        ensures { result ≡ spec.changes (lent self.now) }
    {
        matches!(self, Position::Statement(_, _, _))
    }

    /// Whether generics are operands.
    pub fn has_generics(&self) -> bool
        ensures { result ≡ spec.has_generics (lent self.now) }
    {
        !matches!(self, Position::Interface(_, _))
    }
}
