//! Reading the values of relation fields: a value is checked, and then its atoms are taken off its front.
ghost use Rattle.std.specs.Prelude.{◌≡◌, IfOk, IfErr, Ok};
ghost use Rattle.relation.specs.Error.{IsFault};
ghost use Rattle.relation_text.specs.Refusal.{read_atoms, read_clauses, read_provides};
ghost use Rattle.relation_text.specs.Spelling.{atoms_between, clauses_of, parts_of, provided_items_of};
ghost use Rattle.relation.specs.Value.{HaveGoodVersions};
ghost use Rattle.relation_text.specs.declared.cut.Separator.TheVariants.{Comma, CommaOrBar};

use crate::atom::{Atom, Clause};
use crate::error::RelationError;
use crate::provided::Provided;
use relation_text::{RelationForm, Separator, check, cut_part, is_blank};
use std::alloc::{AllocError, Global};

// The atoms that the separators part, of which no version is refused.
pub fn atoms_between<'a>(
    alloc: Global,
    separator: Separator,
    value: &'a [u8],
    arch: &[u8],
) -> Result<Vec<Atom<'a>>, AllocError>
    requires { HaveGoodVersions (parts_of separator value.now) }
    ensures { IfOk result (λ atoms. atoms.items ≡ atoms_between separator arch.now value.now) }
{
    let mut atoms = Vec::new(alloc);
    let mut left = Some(value);
    while let Some(rest) = left {
        let (part, after) = cut_part(separator, rest);
        if !is_blank(part) {
            atoms.push(Atom::new(arch, part))?;
        }
        left = after;
    }
    Ok(atoms)
}

// The clauses of a value, of which no version is refused.
pub fn clauses_of<'a>(
    alloc: Global,
    value: &'a [u8],
    arch: &[u8],
) -> Result<Vec<Clause<'a>>, AllocError>
    requires { HaveGoodVersions (parts_of CommaOrBar value.now) }
    ensures { IfOk result (λ clauses. clauses.items ≡ clauses_of arch.now value.now) }
{
    let mut clauses = Vec::new(alloc);
    let mut left = Some(value);
    while let Some(rest) = left {
        let (part, after) = cut_part(Separator::Comma, rest);
        if !is_blank(part) {
            clauses.push(Clause::new(atoms_between(alloc, Separator::Bar, part, arch)?))?;
        }
        left = after;
    }
    Ok(clauses)
}

// The items of a Provides value, of which no version is refused.
pub fn provided_items_of<'a>(
    alloc: Global,
    value: &'a [u8],
    arch: &[u8],
) -> Result<Vec<Provided<'a>>, AllocError>
    requires { HaveGoodVersions (parts_of Comma value.now) }
    ensures { IfOk result (λ items. items.items ≡ provided_items_of arch.now value.now) }
{
    let mut items = Vec::new(alloc);
    let mut left = Some(value);
    while let Some(rest) = left {
        let (part, after) = cut_part(Separator::Comma, rest);
        if !is_blank(part) {
            items.push(Provided::new(arch, part))?;
        }
        left = after;
    }
    Ok(items)
}

/// Reads a Pre-Depends or Depends value (Policy 7.1, 7.2), for the configured architecture `arch`. The clauses
/// borrow the value. Linear in the value, and the memory in its atoms.
pub fn parse_clauses<'a>(
    alloc: Global,
    value: &'a [u8],
    arch: &[u8],
) -> Result<Vec<Clause<'a>>, RelationError>
    ensures ok { IfOk result (λ clauses. read_clauses arch.now value.now ≡ Ok clauses.items) }
    ensures err { IfErr result (λ e. IsFault e (read_clauses arch.now value.now)) }
{
    check(RelationForm::Clauses, value)?;
    Ok(clauses_of(alloc, value, arch)?)
}

/// Reads a Conflicts or Breaks value (Policy 7.3, 7.4), as `parse_clauses` does.
pub fn parse_atoms<'a>(
    alloc: Global,
    value: &'a [u8],
    arch: &[u8],
) -> Result<Vec<Atom<'a>>, RelationError>
    ensures ok { IfOk result (λ atoms. read_atoms arch.now value.now ≡ Ok atoms.items) }
    ensures err { IfErr result (λ e. IsFault e (read_atoms arch.now value.now)) }
{
    check(RelationForm::Atoms, value)?;
    Ok(atoms_between(alloc, Separator::Comma, value, arch)?)
}

/// Reads a Provides value (Policy 7.5), as `parse_clauses` does.
pub fn parse_provides<'a>(
    alloc: Global,
    value: &'a [u8],
    arch: &[u8],
) -> Result<Vec<Provided<'a>>, RelationError>
    ensures ok { IfOk result (λ items. read_provides arch.now value.now ≡ Ok items.items) }
    ensures err { IfErr result (λ e. IsFault e (read_provides arch.now value.now)) }
{
    check(RelationForm::Provides, value)?;
    Ok(provided_items_of(alloc, value, arch)?)
}
