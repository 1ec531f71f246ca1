// The lines of a request, with `upgrade-all` spelled out.

ghost use Rattle.std.specs.Prelude.{◌≡◌, ◌++◌, ◌==◌, ◌∷◌, [], IfOk, OnOk, map};
ghost use Rattle.std.specs.List.{slice_split};
ghost use Rattle.universe_request.specs.Cut as Cut;
ghost use Rattle.request_lines.specs.Spelled as Spec;
ghost use Rattle.request_lines.specs.Spelled.{AreReadBy, lines_by, lines_in, spelled_out, staying, stays_at, upgrade_line};
ghost use Rattle.request_lines.specs.Upgraded.{names_to_upgrade};

use crate::upgraded::names_to_upgrade;
use crate::wish::Wish;
use std::alloc::{AllocError, Global};
use universe::Universe;

// The line `upgrade` and the name.
fn upgrade_line(alloc: Global, name: &[u8]) -> Result<Vec<u8>, AllocError>
    ensures { IfOk result (λ line. line.items ≡ upgrade_line name.now) }
{
    let mut line = b"upgrade ".to_vec(alloc)?;
    line.extend_from_slice(name)?;
    Ok(line)
}

// Puts the wish to upgrade the name behind the others.
fn push_upgrade(
    alloc: Global,
    wishes: &mut Vec<Wish>,
    line: usize,
    name: &[u8],
    arch: &[u8],
) -> Result<(), AllocError>
    ensures lines { OnOk result
        (lines_in wishes.new.items ≡ lines_in wishes.old.items ++ upgrade_line name.now ∷ []) }
    ensures read { AreReadBy arch.now wishes.old.items
        → OnOk result (AreReadBy arch.now wishes.new.items) }
{
    let text = upgrade_line(alloc, name)?;
    let wish = Wish::read(alloc, line, text.as_slice(), arch)?;
    wishes.push(wish)?;
    Ok(())
}

// Puts a wish to upgrade each of the names behind the others.
fn push_upgrades(
    alloc: Global,
    wishes: &mut Vec<Wish>,
    line: usize,
    names: &[&[u8]],
    arch: &[u8],
) -> Result<(), AllocError>
    ensures lines { OnOk result (lines_in wishes.new.items
        ≡ lines_in wishes.old.items ++ map upgrade_line (map (λ name. name.now) names.now)) }
    ensures read { AreReadBy arch.now wishes.old.items
        → OnOk result (AreReadBy arch.now wishes.new.items) }
{
    for name in names {
        push_upgrade(alloc, wishes, line, name, arch)?;
    }
    Ok(())
}

// Puts what a line that isn't empty wishes behind the others.
fn push_some(
    alloc: Global,
    wishes: &mut Vec<Wish>,
    line: usize,
    text: &[u8],
    names: &[&[u8]],
    arch: &[u8],
) -> Result<(), AllocError>
    ensures read { AreReadBy arch.now wishes.old.items
        → OnOk result (AreReadBy arch.now wishes.new.items) }
    ensures lines { OnOk result (lines_in wishes.new.items ≡ lines_in wishes.old.items
        ++ Spec.some_by arch.now (map (λ name. name.now) names.now) text.now) }
{
    let wish = Wish::read(alloc, line, text, arch)?;
    if wish.asks_for_all() {
        return push_upgrades(alloc, wishes, line, names, arch);
    }
    wishes.push(wish)?;
    Ok(())
}

// Puts what the line wishes behind the others.
fn push_line(
    alloc: Global,
    wishes: &mut Vec<Wish>,
    line: usize,
    text: &[u8],
    names: &[&[u8]],
    arch: &[u8],
) -> Result<(), AllocError>
    ensures read { AreReadBy arch.now wishes.old.items
        → OnOk result (AreReadBy arch.now wishes.new.items) }
    ensures lines { OnOk result (lines_in wishes.new.items ≡ lines_in wishes.old.items
        ++ lines_by arch.now (map (λ name. name.now) names.now) text.now) }
{
    if text.is_empty() {
        Ok(())
    } else {
        push_some(alloc, wishes, line, text, names, arch)
    }
}

fn lines_of<'a>(alloc: Global, text: &'a [u8]) -> Result<Vec<&'a [u8]>, AllocError>
    ensures { IfOk result (λ lines. map (λ line. line.now) lines.items ≡ Cut.lines_of text.now) }
{
    text.split(|byte| *byte == b'\n').collect(alloc)
}

// What the lines wish, where these names are those to upgrade.
fn wishes_in(
    alloc: Global,
    lines: &[&[u8]],
    names: &[&[u8]],
    arch: &[u8],
) -> Result<Vec<Wish>, AllocError>
    ensures read { IfOk result (λ wishes. AreReadBy arch.now wishes.items) }
    ensures lines { IfOk result (λ wishes.
        lines_in wishes.items
        ≡ Spec.lines_by_each arch.now (map (λ name. name.now) names.now)
        (map (λ line. line.now) lines.now)) }
{
    let mut wishes = Vec::new(alloc);
    let mut number = 0usize;
    for line in lines {
        number = number.saturating_add(1);
        push_line(alloc, &mut wishes, number, line, names, arch)?;
    }
    Ok(wishes)
}

/// The lines of the request with this text, in order: `upgrade-all` is spelled out as a line `upgrade NAME` for each name of which
/// it asks for another version, and empty lines are passed over. Memory alone can fail. Linear in the text, and for each
/// `upgrade-all` in the facts of the start.
pub fn wishes_of(
    alloc: Global,
    universe: &Universe<'_, '_>,
    text: &[u8],
    arch: &[u8],
) -> Result<Vec<Wish>, AllocError>
    ensures read { IfOk result (λ wishes. AreReadBy arch.now wishes.items) }
    ensures lines { IfOk result
        (λ wishes. lines_in wishes.items
        ≡ spelled_out arch.now (names_to_upgrade universe.now) text.now) }
{
    let names = names_to_upgrade(alloc, universe)?;
    let lines = lines_of(alloc, text)?;
    wishes_in(alloc, lines.as_slice(), names.as_slice(), arch)
}

fn stays_at(stays: &[bool], place: usize) -> bool
    ensures { result ≡ stays_at stays.now place }
{
    if place < stays.len() {
        stays[place]
    } else {
        true
    }
}

/// The text of a request with those of these lines that stay, where each is marked by whether it does. Memory alone can fail. Linear
/// in the lines.
pub fn text_of(alloc: Global, wishes: &[Wish], stays: &[bool]) -> Result<Vec<u8>, AllocError>
    ensures { IfOk result
        (λ text. text.items ≡ Spec.text_of (staying (lines_in wishes.now) stays.now)) }
{
    let mut text = Vec::new(alloc);
    for place in 0..wishes.len() {
        if stays_at(stays, place) {
            text.extend_from_slice(wishes[place].text.as_bytes())?;
            text.push(b'\n')?;
        }
    }
    Ok(text)
}
