// Parts and strings of two packages, compared.
ghost use Rattle.std.specs.Prelude.{◌≡◌, true, ℕ, ◌+◌, ◌≤◌, ◌<◌, IsTrue, IfSome, length};
ghost use Rattle.octets.specs.Octets.{part as bytes_at};
ghost use Rattle.octets.specs.Lists.{same};
ghost use Rattle.lookup.specs.Lookup.{entries_start};
ghost use Rattle.lookup.specs.Answers.{package_in};
ghost use Rattle.agreement.specs.Agreement.{header_size, header_within, part_place, same_offsets, string_agrees, string_place};

use lookup::package::Package;
use lookup::searching::UnitAsked;
use numbers::tables::INDEX_5;
use strings::table::Place;

// The place of a unit's part of a section, if it is found.
#[tactic(auto, using(crate::proofs::Located::located, crate::proofs::Located::part_place_inside))]
pub fn part_of(package: &Package, unit: UnitAsked, code: u32) -> Option<Place>
    ensures place { result ≡ part_place «package».now.bytes.now unit.version unit.table unit.identity code }
    ensures inside { IfSome result (λ a. a.start + a.size ≤ length «package».now.bytes.now) }
{
    match package.locate(unit, code) {
        Ok(located) => located.place,
        Err(_) => None,
    }
}

// The place of the string of an entry, if it is found.
#[tactic(auto, using(crate::proofs::Located::located, crate::proofs::Located::string_place_inside))]
fn string_of(package: &Package, unit: UnitAsked, entry: u64) -> Option<Place>
    ensures place { result ≡ string_place «package».now.bytes.now unit.version unit.table unit.identity entry }
    ensures inside { IfSome result (λ a. a.start + a.size ≤ length «package».now.bytes.now) }
{
    match package.locate_string(unit, entry) {
        Ok(located) => located.place,
        Err(_) => None,
    }
}

// Whether two places hold the same bytes.
#[tactic(auto, using(octets::proofs::Parts::part_cut))]
pub fn same_places(p: &[u8], a: Place, q: &[u8], b: Place) -> bool
    requires { (a.start + a.size ≤ length p.now) × (b.start + b.size ≤ length q.now) }
    ensures { result ≡ same (bytes_at p.now a.start a.size) (bytes_at q.now b.start b.size) }
{
    octets::same_bytes(&p[a.start..a.start + a.size], &q[b.start..b.start + b.size])
}

// The header of str_offsets: in version 5 it is twice as wide as an offset.
fn header_size(version: u32, wide: bool) -> usize
    ensures { result ≡ header_size version wide }
{
    if version != INDEX_5 {
        0
    } else if wide {
        16
    } else {
        8
    }
}

// The bytes of q's part of str_offsets that stand in front of its entries.
#[tactic(auto, using(crate::proofs::Located::stated))]
fn header_within(q: &Package, version: u32, b: Place) -> usize
    ensures { result ≡ header_within q.now.bytes.now version b }
{
    let header = header_size(version, q.head.encoding.wide);
    if header <= b.size { header } else { b.size }
}

// Parts of str_offsets, compared by length and header.
pub fn same_offsets(p: &Package, q: &Package, version: u32, a: Place, b: Place) -> bool
    requires { (a.start + a.size ≤ length p.now.bytes.now) × (b.start + b.size ≤ length q.now.bytes.now) }
    ensures { result ≡ same_offsets p.now.bytes.now q.now.bytes.now version (Some a) (Some b) }
{
    if a.size != b.size {
        return false;
    }
    let size = header_within(q, version, b);
    let ours = Place {
        start: b.start,
        size,
    };
    let theirs = Place {
        start: a.start,
        size,
    };
    same_places(p.bytes, theirs, q.bytes, ours)
}

// The string of an entry, where there is one.
#[tactic(auto, unfolding(crate::specs::Agreement::string_agrees))]
pub fn string_agrees(p: &Package, q: &Package, unit: UnitAsked, entry: u64) -> bool
    ensures { result ≡ string_agrees p.now.bytes.now q.now.bytes.now unit.version unit.table unit.identity entry }
{
    let Some(b) = string_of(q, unit, entry) else {
        return true;
    };
    match string_of(p, unit, entry) {
        Some(a) => same_places(p.bytes, a, q.bytes, b),
        None => false,
    }
}
