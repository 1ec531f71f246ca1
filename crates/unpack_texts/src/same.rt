//! Whether two packages are the same, text for text.
ghost use Rattle.std.specs.Prelude.{◌≡◌, ◌↔◌, IsTrue};
ghost use Rattle.std.specs.Option.{option_copied, option_map};
ghost use Rattle.relation.specs.Value.{restriction_by_ref};

use relation::{Atom, Clause, Op, Pkg, Provided, Version};

fn same_version(version: &Version<'_>, other: &Version<'_>) -> bool
    ensures { IsTrue result ↔ (version.now ≡ other.now) }
{
    version.text() == other.text()
}

fn same_text(text: &[u8], other: &[u8]) -> bool
    ensures { IsTrue result ↔ (text.now ≡ other.now) }
{
    text == other
}

fn same_restriction(
    restriction: Option<(Op, &Version<'_>)>,
    other: Option<(Op, &Version<'_>)>,
) -> bool
    ensures { IsTrue result
        ↔ (option_map restriction_by_ref restriction.entry
        ≡ option_map restriction_by_ref other.entry) }
{
    match (restriction, other) {
        (None, None) => true,
        (Some((op, version)), Some((other_op, other_version))) => {
            op == other_op && same_version(version, other_version)
        }
        _ => false,
    }
}

fn same_atom(atom: &Atom<'_>, other: &Atom<'_>) -> bool
    ensures { IsTrue result ↔ (atom.now ≡ other.now) }
{
    same_text(atom.name(), other.name())
        && same_restriction(atom.restriction(), other.restriction())
        && atom.is_foreign() == other.is_foreign()
}

fn same_atoms(atoms: &[Atom<'_>], others: &[Atom<'_>]) -> bool
    ensures { IsTrue result ↔ (atoms.now ≡ others.now) }
{
    atoms.len() == others.len()
        && atoms
            .iter()
            .zip(others.iter())
            .all(|(atom, other)| same_atom(atom, other))
}

fn same_clause(clause: &Clause<'_>, other: &Clause<'_>) -> bool
    ensures { IsTrue result ↔ (clause.now ≡ other.now) }
{
    same_atoms(clause.as_slice(), other.as_slice())
}

fn same_clauses(clauses: &[Clause<'_>], others: &[Clause<'_>]) -> bool
    ensures { IsTrue result ↔ (clauses.now ≡ others.now) }
{
    clauses.len() == others.len()
        && clauses
            .iter()
            .zip(others.iter())
            .all(|(clause, other)| same_clause(clause, other))
}

fn same_provided_version(version: Option<&Version<'_>>, other: Option<&Version<'_>>) -> bool
    ensures { IsTrue result ↔ (option_copied version.entry ≡ option_copied other.entry) }
{
    match (version, other) {
        (None, None) => true,
        (Some(version), Some(other)) => same_version(version, other),
        _ => false,
    }
}

fn same_item(item: &Provided<'_>, other: &Provided<'_>) -> bool
    ensures { IsTrue result ↔ (item.now ≡ other.now) }
{
    same_text(item.name(), other.name())
        && same_provided_version(item.version(), other.version())
        && item.is_foreign() == other.is_foreign()
}

fn same_items(items: &[Provided<'_>], others: &[Provided<'_>]) -> bool
    ensures { IsTrue result ↔ (items.now ≡ others.now) }
{
    items.len() == others.len()
        && items
            .iter()
            .zip(others.iter())
            .all(|(item, other)| same_item(item, other))
}

fn same_relations(pkg: &Pkg<'_>, other: &Pkg<'_>) -> bool
    ensures { IsTrue result ↔ (pkg.now.relations ≡ other.now.relations) }
{
    same_clauses(pkg.pre_depends(), other.pre_depends())
        && same_clauses(pkg.depends(), other.depends())
        && same_atoms(pkg.conflicts(), other.conflicts())
        && same_atoms(pkg.breaks(), other.breaks())
        && same_items(pkg.provides(), other.provides())
}

/// Whether the packages are the same: name, version and relations, each as it is spelled. Linear in them.
pub(crate) fn is_same(pkg: &Pkg<'_>, other: &Pkg<'_>) -> bool
    ensures { IsTrue result ↔ (pkg.now ≡ other.now) }
{
    same_text(pkg.name(), other.name())
        && same_version(pkg.version(), other.version())
        && same_relations(pkg, other)
}
