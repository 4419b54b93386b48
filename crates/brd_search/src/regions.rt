//! Regions of instructions, as an option says them.

ghost use Rattle.std.specs.Prelude.{◌≡◌, IfOk, Some};
ghost use Rattle.std.specs.List.{list_any};
ghost use Rattle.brd_search.specs.Plans as plans;
ghost use Rattle.brd_search.specs.Plans.{AddsOr, are_double, is_same, parts_of, text_of};

use crate::fault::RegionFault;
use crate::goals::begins_with_digit;
use brd_base::{List, NoMemory};
use brd_mem::{Symbol, symbol_value};
use brd_only::Region;
use brd_text::{number, parted, piece};
use std::alloc::Global;

/// The regions that an option says, or what is wrong with them; none if nothing is said.
pub(crate) fn regions_of(
    alloc: Global,
    text: Option<&str>,
    symbols: &[Symbol],
) -> Result<Result<List<Region>, RegionFault>, NoMemory>
    ensures { IfOk result (λ said. said ≡ plans.regions_of symbols.now (text_of text.entry)) }
{
    match text {
        Some(text) => regions_in(alloc, text.as_bytes(), symbols),
        None => Ok(Ok(List::new(alloc))),
    }
}

/// The regions that a text says, each once, or what is wrong with them.
fn regions_in(
    alloc: Global,
    text: &[u8],
    symbols: &[Symbol],
) -> Result<Result<List<Region>, RegionFault>, NoMemory>
    ensures { IfOk result (λ said. said ≡ plans.regions_of symbols.now (Some text.now)) }
{
    let mut regions = List::new(alloc);
    match add_regions(&mut regions, text, symbols)? {
        Ok(()) => Ok(each_once(regions)),
        Err(fault) => Ok(Err(fault)),
    }
}

/// Regions, unless one is there twice.
fn each_once(regions: List<Region>) -> Result<List<Region>, RegionFault>
    ensures { result ≡ plans.each_once regions }
{
    if are_double(regions.as_slice()) {
        return Err(RegionFault::Twice);
    }
    Ok(regions)
}

/// Adds the region of each piece between the commas of a text, or answers what is wrong with the first that isn't one.
fn add_regions(
    regions: &mut List<Region>,
    text: &[u8],
    symbols: &[Symbol],
) -> Result<Result<(), RegionFault>, NoMemory>
    ensures { IfOk result (AddsOr (plans.regions_in symbols.now text.now) regions.old regions.new) }
{
    let mut rest = text;
    'pieces: loop {
        let (each, after) = piece(rest);
        let region = match region_of(each, symbols) {
            Ok(region) => region,
            Err(fault) => return Ok(Err(fault)),
        };
        regions.push(region)?;
        let Some(left) = after else {
            return Ok(Ok(()));
        };
        rest = left;
    }
}

/// The region that `FROM..UPTO` says.
#[tactic(auto, unfolding(crate::specs::Plans::region_of, crate::specs::Plans::parts_of))]
fn region_of(text: &[u8], symbols: &[Symbol]) -> Result<Region, RegionFault>
    ensures { result ≡ plans.region_of symbols.now text.now }
{
    let (from, Some(rest)) = parted(text, b'.') else {
        return Err(RegionFault::Form);
    };
    region_from(from, rest, symbols)
}

/// The region from a place up to one that stands behind a second point.
fn region_from(from: &[u8], rest: &[u8], symbols: &[Symbol]) -> Result<Region, RegionFault>
    ensures { result ≡ plans.region_from symbols.now from.now rest.now }
{
    let Some((point, upto)) = rest.split_first() else {
        return Err(RegionFault::Form);
    };
    if *point != b'.' {
        return Err(RegionFault::Form);
    }
    let from = label_at(from, symbols)?;
    let upto = label_at(upto, symbols)?;
    between(from, upto)
}

/// The region from one address up to another one.
fn between(from: u32, upto: u32) -> Result<Region, RegionFault>
    ensures { result ≡ plans.between from upto }
{
    if from < upto {
        return Ok(Region { from, upto });
    }
    Err(RegionFault::Empty)
}

/// The address of a place: a number where it begins with a digit, or the value of a symbol.
fn label_at(place: &[u8], symbols: &[Symbol]) -> Result<u32, RegionFault>
    ensures { result ≡ plans.label_at symbols.now place.now }
{
    if begins_with_digit(place) {
        return match number(place) {
            Some(address) => Ok(address),
            None => Err(RegionFault::Form),
        };
    }
    match symbol_value(symbols, place) {
        Some(address) => Ok(address),
        None => Err(RegionFault::NoSymbol),
    }
}

/// Whether a region is there twice.
fn are_double(regions: &[Region]) -> bool
    ensures { result ≡ are_double regions.now }
{
    let mut rest = regions;
    'regions: while let Some((region, others)) = rest.split_first() {
        if is_again(*region, others) {
            return true;
        }
        rest = others;
    }
    false
}

/// Whether one of some regions is the same as this one.
fn is_again(region: Region, others: &[Region]) -> bool
    ensures { result ≡ list_any (λ other. is_same region other) others.now }
{
    others.iter().any(|other| other.from == region.from && other.upto == region.upto)
}
