// Floods in lanes, compared with a plain walk from state to state.
ghost use Rattle.std.specs.Prelude.{◌≡◌, ◌<◌};

use moves::{DropMode, Key, fall, spawn, step};
use reach::{Places, Steps, places};
use srs::{Piece, Placement, Rules, canonical, is_inside};
use std::alloc::{AllocError, Global};
use std::marker::Brand;
use std::sync::ledger::{Blank, Ledger};
use well::Well;

/// Whether a placement was met, for each rotation, row and column.
type Met = Vec<bool>;

fn index(placement: &Placement) -> usize {
    (usize::from(placement.rotation.index()) * 23 + usize::from(placement.y)) * 10
        + usize::from(placement.x)
}

/// Marks a placement as met, and returns whether it is new.
fn meet(met: &mut Met, placement: &Placement) -> bool {
    match met.get_mut(index(placement)) {
        Some(entry) if !*entry => {
            *entry = true;
            true
        }
        _ => false,
    }
}

/// The states that a walk reaches, key by key.
fn walked(
    alloc: Global,
    well: &Well,
    rules: &Rules,
    piece: Piece,
    mode: DropMode,
) -> Result<Vec<Placement>, AllocError> {
    let mut met = vec![in alloc; false; 920]?;
    let mut states = Vec::new(alloc);
    states.push(spawn(piece))?;
    for next in 0..920 {
        let Some(state) = states.get(next).copied() else {
            break;
        };
        if state.x > 9 || state.y > 22 || !well.is_free(&state) {
            continue;
        }
        for key in Key::ALL {
            if !mode.allows(key) {
                continue;
            }
            if let Some(reached) = step(well, rules, &state, key)
                && meet(&mut met, &reached)
            {
                states.push(reached)?;
            }
        }
    }
    Ok(states)
}

/// How many placements the states come to rest at, and which ones.
fn rested(alloc: Global, well: &Well, states: &[Placement]) -> Result<(usize, Met), AllocError> {
    let mut met = vec![in alloc; false; 920]?;
    let mut number = 0;
    for state in states {
        if state.x > 9 || state.y > 22 || !well.is_free(state) {
            continue;
        }
        let rest = fall(well, state);
        if rest.x > 9 || rest.y > 22 || !is_inside(&rest) {
            continue;
        }
        if meet(&mut met, &canonical(&rest)) && number < 920 {
            number += 1;
        }
    }
    Ok((number, met))
}

/// How many placements there are, if each of them was met.
fn held(places: &Places, met: &Met) -> Option<usize> {
    let mut last: Option<Placement> = None;
    for number in 0..921 {
        match places.next_after(last.as_ref()) {
            None => return Some(number),
            Some(placement) if met.get(index(&placement)).copied().unwrap_or(false) => last = Some(
                placement,
            ),
            Some(_) => return None,
        }
    }
    None
}

/// Whether the floods in lanes find exactly the placements at which plain walks come to rest, for each piece and either
/// drop mode.
fn agree<L: Ledger>(alloc: Global, well: &Well, steps: &mut Steps<L>) -> Result<bool, AllocError> {
    let rules = Rules::srs();
    for mode in [DropMode::Soft, DropMode::Hard] {
        for piece in Piece::ALL {
            let states = walked(alloc, well, &rules, piece, mode)?;
            let (number, met) = rested(alloc, well, &states)?;
            let places = places(well, &rules, piece, mode, steps);
            if held(&places, &met) != Some(number) {
                return Ok(false);
            }
        }
    }
    Ok(true)
}

/// Whether the floods agree in each field.
fn agree_in_fields<L: Ledger>(alloc: Global, blank: Blank) -> Result<bool, AllocError>
    requires name { blank.name ≡ L.name }
    requires parts { blank.parts ≡ L.parts }
    requires some { 0 < blank.parts }
{
    let mut steps = Steps::<L>::new(blank);
    for field in FIELDS {
        let Ok(well) = Well::from_rows(field) else {
            return Ok(false);
        };
        if !agree(alloc, &well, &mut steps)? {
            return Ok(false);
        }
    }
    Ok(true)
}

/// Whether the floods agree in stacks of six, seven and eight rows.
fn agree_in_stacks<L: Ledger>(alloc: Global, blank: Blank) -> Result<bool, AllocError>
    requires name { blank.name ≡ L.name }
    requires parts { blank.parts ≡ L.parts }
    requires some { 0 < blank.parts }
{
    let mut steps = Steps::<L>::new(blank);
    for rows in 6..9u8 {
        let mut random = u64::from(rows);
        for _ in 0..STACKS {
            let (well, next) = stack(random, rows);
            random = next;
            if !agree(alloc, &well, &mut steps)? {
                return Ok(false);
            }
        }
    }
    Ok(true)
}

/// A stack of this many rows with holes and overhangs, and the number that the next one is made from.
fn stack(random: u64, rows: u8) -> (Well, u64) {
    let mut random = shuffled(random);
    let percent = 10 + (random >> 33) % 85;
    let mut well = Well::empty();
    for y in 0..rows.min(22) {
        for x in 0..10 {
            random = shuffled(random);
            if (random >> 33) % 100 < percent {
                well = well.with(x, y);
            }
        }
    }
    (well, random)
}

/// A number that looks random, made from another one.
fn shuffled(number: u64) -> u64 {
    number
        .wrapping_mul(6_364_136_223_846_793_005)
        .wrapping_add(1_442_695_040_888_963_407)
}

/// The fields of the worked solutions, overhangs that only kicks lead under, and a spawn that is not free.
const FIELDS: &[&[u8]] = &[
    b"XXXXXX____",
    b"XXXXXX____/XXXXXX____",
    b"XXXXXXXX__/XXXXXX____/XXXXXXXX__",
    b"XXXXXXXXX_/XXXXXXXXX_/XXXXXXXXX_/XXXXXXXXX_",
    b"XXX___XXXX/XX__XXXXXX/XXX__XXXXX/XXXX_XXXXX/XXX__XXXXX",
    b"__XX______/X____XX___/XX_XXX__XX/XX__XX_XXX/XXX_X__XXX/XX__XX_XXX",
    b"X________X/XX__X___XX/XX______XX/XXX_XX__XX/XX__XX_XXX/XXX____XXX/XX__XXX_XX/XXX_____XX",
    b"____X_____/__________/__________/__________/__________/__________/__________/__________/__________/__________/__________/__________/__________/__________/__________/__________/__________/__________/__________/__________/__________",
];

/// How many stacks of each height are flooded, for each piece and either drop mode.
const STACKS: u32 = 80;

#[test]
fn floods_agree_with_plain_walks(rt: HostRuntime) {
    assert!(rt; agree_in_fields::<Brand>(rt.alloc(), Blank::new(1)) == Ok(true));
}

#[test]
fn floods_agree_with_plain_walks_in_stacks(rt: HostRuntime) {
    assert!(rt; agree_in_stacks::<Brand>(rt.alloc(), Blank::new(1)) == Ok(true));
}
