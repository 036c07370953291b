//! Where an entity breaks the clauses of Level 0.

ghost use Rattle.std.specs.Prelude.{IfOk};
ghost use Rattle.std.specs.List.{Contains, slice_get};
ghost use Rattle.vital_base.specs.Breaches.{Rises};
ghost use Rattle.vital_base.specs.declared.breach.Breach.{Breach as Breach'};
ghost use Rattle.vital_level0.specs.Breaches.{HasOneFirst, IsBreach, IsFirst};

use crate::found::of_entity;
use std::alloc::{AllocError, Global};
use vital_base::{Breaches, List};
use vital_nodes::Entity;

/// All breaches of Level 0 in an entity, each once, by place and then by clause. Each generic, port, declaration and statement is
/// looked at once, and only what was found is put in order.
pub fn breaches0(alloc: Global, entity: &Entity) -> Result<Breaches, AllocError>
    ensures all { IfOk result (λ breaches. (b : Breach') → IsBreach entity.now b → Contains breaches b) }
    ensures only { IfOk result (λ breaches. (b : Breach') → Contains breaches b → IsBreach entity.now b) }
    ensures order { IfOk result (λ breaches. Rises breaches) }
    ensures first { IfOk result (λ breaches. IsFirst entity.now (slice_get breaches 0)) }
{
    let mut found = of_entity(alloc, entity)?;
    found.sort_unstable();
    found.dedup();
    Ok(List::new(found))
}

/// A law: each entity has one first breach, or none.
pub fn one_first_breach()
    ensures { HasOneFirst }
{}
