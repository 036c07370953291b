//! Declarations that break the clauses L1.2, L1.3, L1.4 and L1.9.

ghost use Rattle.std.specs.Prelude.{◌≡◌, [], ◌∷◌, ◌++◌, IfOk, OnOk};
ghost use Rattle.std.specs.Option.{option_copied};
ghost use Rattle.vital_declaration_clauses.specs.Clauses as spec;
ghost use Rattle.vital_declarations.specs.Operands as operands;
ghost use Rattle.vital_names.specs.Sites as sites;
ghost use Rattle.vital_declarations.specs.Types.{type_of};

use crate::good_constant::is_good_constant;
use crate::region::Region;
use crate::scope::Scope;
use std::alloc::{AllocError, Global};
use vital_base::Place;
use vital_declarations::{
    AliasTarget, DeclaredType, VariableType, alias_target, character, is_of_levels, type_of,
    variable_type,
};
use vital_names::{CellNames, CellUnit, LibraryNames, ProcessNames, Site, TypeName, viewpoints};
use vital_nodes::{Alias, Decl, Expr, HasPlace, Object, ObjectClass, Subtype, identifier_of};

/// A clause that declarations of an architecture, its blocks and its processes may break.
#[derive(Clone, Copy)]
pub enum DeclarationClause {
    /// L1.2: the declarations of the architecture itself.
    InArchitecture,
    /// L1.3: constants.
    OfConstants,
    /// L1.4: signals.
    OfSignals,
    /// L1.9: the declarations of processes.
    InProcess,
}

/// Whether a type is one that an alias's subtype may be.
fn is_alias_type(library: &LibraryNames<'_>, subtype: &Subtype) -> bool
    ensures { result ≡ spec.is_alias_type (type_of subtype.now) }
{
    matches!(
        type_of(library, subtype),
        DeclaredType::Plain(TypeName::StdUlogic | TypeName::StdLogic | TypeName::X01)
    )
}

/// Whether an alias has no subtype, or one that it may have.
fn has_alias_type(library: &LibraryNames<'_>, alias: &Alias) -> bool
    ensures { result ≡ spec.has_alias_type alias.now }
{
    match &alias.subtype {
        Some(subtype) => is_alias_type(library, subtype),
        None => true,
    }
}

/// Whether a byte between apostrophes is a level, as the standard prints it.
fn is_level_character(byte: u8) -> bool
    ensures { result ≡ spec.is_level_character byte }
{
    matches!(
        byte,
        b'U' | b'X' | b'0' | b'1' | b'Z' | b'W' | b'L' | b'H' | b'-'
    )
}

/// Whether an expression is a character literal of a level.
pub fn is_level_literal(value: &Expr) -> bool
    ensures { result ≡ spec.is_level_literal value.now }
{
    match character(value) {
        Some(byte) => is_level_character(byte),
        None => false,
    }
}

/// Whether a signal is as Level 1 allows it.
fn is_good_signal(library: &LibraryNames<'_>, signal: &Object) -> bool
    ensures { result ≡ spec.is_good_signal signal.now }
{
    if !is_of_levels(library, signal) {
        return false;
    }
    match &signal.parts.get().value {
        Some(value) => is_level_literal(value),
        None => true,
    }
}

/// Whether a default is an identifier with a text, or there is none.
fn has_no_other_default(word: &[u8], default: &Option<Expr>) -> bool
    ensures { result ≡ spec.has_no_other_default word.now default.now }
{
    match default {
        Some(value) => match identifier_of(value) {
            Some(identifier) => identifier.name.as_slice() == word,
            None => false,
        },
        None => true,
    }
}

/// Whether a variable of a type may have a default.
fn is_good_default(default: &Option<Expr>, variable_type: VariableType<'_>) -> bool
    ensures { result ≡ spec.is_good_default default.now (operands.lent_type variable_type.entry) }
{
    match variable_type {
        VariableType::Level | VariableType::X01 | VariableType::Vector(_) => true,
        VariableType::GlitchData => default.is_none(),
        VariableType::TimingData => has_no_other_default(b"vitaltimingdatainit", default),
        VariableType::PeriodData => has_no_other_default(b"vitalperioddatainit", default),
    }
}

/// Whether a variable is as Level 1 allows it.
fn is_good_variable(library: &LibraryNames<'_>, variable: &Object) -> bool
    ensures { result ≡ spec.is_good_variable variable.now }
{
    let parts = variable.parts.get();
    match variable_type(library, &parts.subtype) {
        Some(variable_type) => is_good_default(&parts.value, variable_type),
        None => false,
    }
}

/// Whether a declaration of the architecture is an attribute, a constant, a signal or an alias of a level constant.
fn is_allowed_in_arch<'a>(names: &CellNames<'a>, site: &Site<'a>, declaration: &Decl) -> bool
    ensures { result ≡ spec.is_allowed_in_arch names.now (sites.lent site.now) declaration.now }
{
    match declaration {
        Decl::Attribute(_, _) | Decl::Specification(_) => true,
        Decl::Object(object) => object.class != ObjectClass::Variable,
        Decl::Alias(alias) => {
            has_alias_type(names.library(), alias)
                && matches!(
                    alias_target(names, site, alias),
                    AliasTarget::Constant(_) | AliasTarget::PackageConstant(_)
                )
        }
        Decl::Component(_) => false,
    }
}

/// Whether a declaration is a constant that Level 1 does not allow.
fn breaks_3<'a>(names: &CellNames<'a>, site: &Site<'a>, declaration: &Decl) -> bool
    ensures { result ≡ spec.breaks_3 names.now (sites.lent site.now) declaration.now }
{
    match declaration {
        Decl::Object(object) if object.class == ObjectClass::Constant => {
            !is_good_constant(Scope::Cell(names, site), object)
        }
        _ => false,
    }
}

/// Whether a declaration is a signal that Level 1 does not allow.
fn breaks_4(library: &LibraryNames<'_>, declaration: &Decl) -> bool
    ensures { (site : sites.Site) → result ≡ spec.breaks_4 site declaration.now }
{
    match declaration {
        Decl::Object(object) if object.class == ObjectClass::Signal => {
            !is_good_signal(library, object)
        }
        _ => false,
    }
}

/// Whether an object is a constant or a variable as Level 1 allows it.
fn is_allowed_object(library: &LibraryNames<'_>, object: &Object) -> bool
    ensures { result ≡ spec.is_allowed_object object.now.«class» object.now }
{
    match object.class {
        ObjectClass::Constant => true,
        ObjectClass::Signal => false,
        ObjectClass::Variable => is_good_variable(library, object),
    }
}

/// Whether a declaration of a process is a constant, a variable or an alias as Level 1 allows it.
fn is_allowed_in_process<'a>(names: &CellNames<'a>, site: &Site<'a>, declaration: &Decl) -> bool
    ensures { result ≡ spec.is_allowed_in_process names.now (sites.lent site.now) declaration.now }
{
    match declaration {
        Decl::Object(object) => is_allowed_object(names.library(), object),
        Decl::Alias(alias) => {
            has_alias_type(names.library(), alias)
                && matches!(
                    alias_target(names, site, alias),
                    AliasTarget::Variable(_) | AliasTarget::Element(_, _)
                )
        }
        _ => false,
    }
}

/// Whether a declaration breaks a clause at a site.
fn breaks<'a>(
    clause: DeclarationClause,
    names: &CellNames<'a>,
    site: &Site<'a>,
    declaration: &Decl,
) -> bool
    ensures { result ≡ spec.breaks clause names.now (sites.lent site.now) declaration.now }
{
    match clause {
        DeclarationClause::InArchitecture => !is_allowed_in_arch(names, site, declaration),
        DeclarationClause::OfConstants => breaks_3(names, site, declaration),
        DeclarationClause::OfSignals => breaks_4(names.library(), declaration),
        DeclarationClause::InProcess => {
            site.process.is_some() && !is_allowed_in_process(names, site, declaration)
        }
    }
}

/// Puts the place of a declaration at the end if it breaks a clause where its parts see what stands before a viewpoint.
fn put_declaration<'a>(
    places: &mut Vec<Place>,
    clause: DeclarationClause,
    names: &CellNames<'a>,
    process: Option<&'a ProcessNames<'a>>,
    viewpoint: Place,
    declaration: &Decl,
) -> Result<(), AllocError>
    ensures { OnOk result (places.new.items ≡ places.old.items ++ spec.broken_among (spec.breaks clause names.now) (option_copied process.entry) ((viewpoint, declaration.now) ∷ [])) }
{
    let site = Site {
        unit: CellUnit::Architecture,
        process,
        viewpoint,
    };
    if breaks(clause, names, &site, declaration) {
        places.push(declaration.place())?;
    }
    Ok(())
}

/// Puts the places of the declarations of a region that break a clause at the end.
fn put_region<'a>(
    places: &mut Vec<Place>,
    alloc: Global,
    clause: DeclarationClause,
    names: &CellNames<'a>,
    region: &'a Region<'a>,
) -> Result<(), AllocError>
    ensures { OnOk result (places.new.items ≡ places.old.items ++ spec.broken_in (spec.breaks clause names.now) region.now) }
{
    let process = region.process();
    let declarations = region.declarations();
    let viewpoints = viewpoints(alloc, declarations)?;
    let viewpoints = viewpoints.as_slice();
    for (index, declaration) in declarations.iter().enumerate() {
        put_declaration(
            places,
            clause,
            names,
            process,
            viewpoints[index],
            declaration,
        )?;
    }
    Ok(())
}

/// The places of the declarations of regions that break a clause.
pub fn broken<'a>(
    alloc: Global,
    clause: DeclarationClause,
    names: &CellNames<'a>,
    regions: &'a [Region<'a>],
) -> Result<Vec<Place>, AllocError>
    ensures { IfOk result (λ places. places.items ≡ spec.broken (spec.breaks clause names.now) regions.now) }
{
    let mut places = Vec::new(alloc);
    for region in regions {
        put_region(&mut places, alloc, clause, names, region)?;
    }
    Ok(places)
}
