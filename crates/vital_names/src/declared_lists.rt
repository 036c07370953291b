//! Lists of what is declared.

ghost use Rattle.std.specs.Prelude.{◌≡◌, [], ◌∷◌, ◌++◌, map, IfOk, OnOk};
ghost use Rattle.std.specs.Option.{option_copied};
ghost use Rattle.vital_names.specs.Declarations.{Generic, Port, body_of, declared_in, interface_of, lent};

use crate::declared::{Declared, declared_by};
use std::alloc::{AllocError, Global};
use vital_nodes::{Arch, Decl, Entity, Iface};

/// What an entity declares: its generics, and then its ports.
pub fn interface_of<'a>(alloc: Global, entity: &'a Entity) -> Result<Vec<Declared<'a>>, AllocError>
    ensures { IfOk result (λ declared. map lent declared.items ≡ interface_of entity.now) }
{
    let mut declared = Vec::new(alloc);
    put_generics(&mut declared, entity.generics.as_slice())?;
    put_ports(&mut declared, entity.ports.as_slice())?;
    Ok(declared)
}

/// Puts generics at the end.
fn put_generics<'a>(
    declared: &mut Vec<Declared<'a>>,
    generics: &'a [Iface],
) -> Result<(), AllocError>
    ensures { OnOk result (map lent declared.new.items ≡ map lent declared.old.items ++ map (λ i. Generic i) generics.now) }
{
    for generic in generics {
        declared.push(Declared::Generic(generic))?;
    }
    Ok(())
}

/// Puts ports at the end.
fn put_ports<'a>(declared: &mut Vec<Declared<'a>>, ports: &'a [Iface]) -> Result<(), AllocError>
    ensures { OnOk result (map lent declared.new.items ≡ map lent declared.old.items ++ map (λ i. Port i) ports.now) }
{
    for port in ports {
        declared.push(Declared::Port(port))?;
    }
    Ok(())
}

/// What declarations of an architecture or of a process declare, in order.
pub fn declared_in<'a>(
    alloc: Global,
    declarations: &'a [Decl],
) -> Result<Vec<Declared<'a>>, AllocError>
    ensures { IfOk result (λ declared. map lent declared.items ≡ declared_in declarations.now) }
{
    let mut declared = Vec::new(alloc);
    for declaration in declarations {
        put_declared(&mut declared, declaration)?;
    }
    Ok(declared)
}

/// What an architecture declares, in order, if there is one.
pub fn body_of<'a>(alloc: Global, arch: Option<&'a Arch>) -> Result<Vec<Declared<'a>>, AllocError>
    ensures { IfOk result (λ declared. map lent declared.items ≡ body_of (option_copied arch.entry)) }
{
    match arch {
        Some(arch) => declared_in(alloc, arch.declarations.as_slice()),
        None => Ok(Vec::new(alloc)),
    }
}

/// What an architecture declares, if there is one, and then the generics and ports of an entity.
pub fn all_declared<'a>(
    alloc: Global,
    entity: &'a Entity,
    arch: Option<&'a Arch>,
) -> Result<Vec<Declared<'a>>, AllocError>
    ensures { IfOk result (λ declared. map lent declared.items ≡ body_of (option_copied arch.entry) ++ interface_of entity.now) }
{
    let mut declared = body_of(alloc, arch)?;
    put_generics(&mut declared, entity.generics.as_slice())?;
    put_ports(&mut declared, entity.ports.as_slice())?;
    Ok(declared)
}

/// Puts what a declaration declares at the end.
fn put_declared<'a>(
    declared: &mut Vec<Declared<'a>>,
    declaration: &'a Decl,
) -> Result<(), AllocError>
    ensures { OnOk result (map lent declared.new.items ≡ map lent declared.old.items ++ declared_in (declaration.now ∷ [])) }
{
    match declared_by(declaration) {
        Some(one) => Ok(declared.push(one)?),
        None => Ok(()),
    }
}
