//! Reads the gains of a clip.

ghost use Rattle.std.specs.Prelude.{◌≡◌, ◌&&◌, All, length, map, Vec};
ghost use Rattle.std.specs.declared.alloc.Global.{Global};
ghost use Rattle.toml.specs.View.{view, table_view, items_view};
ghost use Rattle.clip_core.specs.declared.gain.Point.{Point};
ghost use Rattle.clip_core.specs.Clips.{gain_content};
ghost use Rattle.clip_core.specs.Gains.{IsPoint};
ghost use Rattle.project_core.specs.Reading.{is_number};
ghost use Rattle.project_core.specs.Steps.{Gives};
ghost use Rattle.project_core.specs.Tables.{list_of};
ghost use Rattle.mix_core.specs.ReadingGains.{are_integers, each_list, each_point, gain_of, gains_at, lists_at, lists_of, point_in, point_of, points_of, rise_from};

use clip_core::{Gains, Point};
use project_core::table::{below, find, integers_of};
use project_core::{Key, MAX_PLACE, ProjectFault, Table};
use std::alloc::Global;
use toml::Value;

/// The most points of a list.
pub const MAX_POINTS: usize = 4096;

/// The greatest absolute value of a gain.
pub const MAX_GAIN: u32 = 1 << 26;

/// The gains of a clip: those at `gain`, else those at `gains`, full gain if both are left out.
#[tactic(auto, unfolding(crate::specs::ReadingGains::gains_at, crate::specs::ReadingGains::lists_at))]
pub(crate) fn gains_at(
    alloc: Global,
    table: &toml::Table,
    clip: Table,
) -> Result<Gains, ProjectFault>
    ensures { Gives gain_content result (gains_at clip (table_view table.now)) }
{
    let Some(value) = find(table, Key::Gain) else {
        return lists_at(alloc, table, clip);
    };
    let points = gain_of(alloc, value, clip)?;
    match find(table, Key::Gains) {
        Some(_) => Err(ProjectFault::OutOfLimit(Key::Gains, clip)),
        None => Ok(Gains::Alike(points)),
    }
}

// The gains of each channel in a table without `gain`.
#[tactic(auto, unfolding(crate::specs::ReadingGains::lists_at))]
fn lists_at(alloc: Global, table: &toml::Table, clip: Table) -> Result<Gains, ProjectFault>
    ensures { Gives gain_content result (lists_at clip (table_view table.now)) }
{
    let Some(value) = find(table, Key::Gains) else {
        return Ok(Gains::Full);
    };
    Ok(Gains::Each(lists_of(alloc, value, clip)?))
}

// The points of the value at `gain`. First all must be integers, and then all must be within the limits.
#[tactic(auto, unfolding(crate::specs::ReadingGains::gain_of))]
fn gain_of(alloc: Global, value: &Value, clip: Table) -> Result<Vec<Point>, ProjectFault>
    ensures { Gives (λ v. v.items) result (gain_of clip (view value.now)) }
{
    if !are_integers(value, 2) {
        return Err(ProjectFault::WrongKind(Key::Gain, clip));
    }
    points_of(alloc, value, Key::Gain, clip)
}

// The lists of points of the value at `gains`. First all must be integers, and then all must be within the limits.
#[tactic(auto, unfolding(crate::specs::ReadingGains::lists_of), using(project_core::proofs::Each::list_of_length))]
fn lists_of(alloc: Global, value: &Value, clip: Table) -> Result<Vec<Vec<Point>>, ProjectFault>
    ensures { Gives (λ v. map (λ (points : Vec Point Global). points.items) v.items) result (lists_of clip (view value.now)) }
{
    if !are_integers(value, 3) {
        return Err(ProjectFault::WrongKind(Key::Gains, clip));
    }
    let Some(values) = value.as_array() else {
        return Err(ProjectFault::WrongKind(Key::Gains, clip));
    };
    if values.is_empty() {
        return Err(ProjectFault::OutOfLimit(Key::Gains, clip));
    }
    each_list(alloc, values, clip)
}

// The lists of points that the values are.
#[tactic(auto, unfolding(crate::specs::ReadingGains::each_list))]
fn each_list(alloc: Global, values: &[Value], clip: Table) -> Result<Vec<Vec<Point>>, ProjectFault>
    ensures { Gives (λ v. map (λ (points : Vec Point Global). points.items) v.items) result (each_list clip (list_of (items_view values.now))) }
{
    let mut lists = Vec::new(alloc);
    for value in values {
        let points = points_of(alloc, value, Key::Gains, clip)?;
        lists.push(points)?;
    }
    Ok(lists)
}

// The points that a value is: 1 to 4096, each at a greater place than the one before.
#[tactic(auto, unfolding(crate::specs::ReadingGains::points_of))]
fn points_of(
    alloc: Global,
    value: &Value,
    key: Key,
    clip: Table,
) -> Result<Vec<Point>, ProjectFault>
    ensures { Gives (λ v. v.items) result (points_of key clip (view value.now)) }
{
    let Some(values) = value.as_array() else {
        return Err(ProjectFault::WrongKind(key, clip));
    };
    let points = each_point(alloc, values, key, clip)?;
    if !are_within(&points) {
        return Err(ProjectFault::OutOfLimit(key, clip));
    }
    Ok(points)
}

// The points that the values are.
#[tactic(auto, unfolding(crate::specs::ReadingGains::each_point))]
fn each_point(
    alloc: Global,
    values: &[Value],
    key: Key,
    clip: Table,
) -> Result<Vec<Point>, ProjectFault>
    ensures { Gives (λ v. v.items) result (each_point key clip (list_of (items_view values.now))) }
{
    let mut points = Vec::new(alloc);
    for value in values {
        let point = point_of(alloc, value, key, clip)?;
        points.push(point)?;
    }
    Ok(points)
}

// The point that a value is.
#[tactic(auto, unfolding(crate::specs::ReadingGains::point_of))]
fn point_of(alloc: Global, value: &Value, key: Key, clip: Table) -> Result<Point, ProjectFault>
    ensures { Gives (λ p. p) result (point_of key clip (view value.now)) }
{
    let Some(values) = value.as_array() else {
        return Err(ProjectFault::WrongKind(key, clip));
    };
    let integers = integers_of(alloc, values, key, clip)?;
    point_in(&integers).ok_or(ProjectFault::OutOfLimit(key, clip))
}

// The point that two integers are, a place and a gain within the limits.
fn point_in(integers: &[i64]) -> Option<Point>
    ensures { result ≡ point_in integers.now }
{
    let [place, gain] = integers else {
        return None;
    };
    let place = below(*place, MAX_PLACE + 1)?;
    match i32::try_from(*gain) {
        Ok(gain) if gain.unsigned_abs() <= MAX_GAIN => Some(Point { place, gain }),
        _ => None,
    }
}

// Whether there are 1 to 4096 points, each at a greater place than the one before.
fn are_within(points: &[Point]) -> bool
    requires { All IsPoint points.now }
    ensures { result ≡ is_number 4096 (length points.now) && rise_from 0 points.now }
{
    if points.is_empty() || points.len() > MAX_POINTS {
        return false;
    }
    let mut least = 0usize;
    for point in points {
        if point.place < least {
            return false;
        }
        least = point.place + 1;
    }
    true
}

// Whether a value is integers in lists that are nested this deep, an integer alone at depth 0.
fn are_integers(value: &Value, depth: usize) -> bool
    ensures { result ≡ are_integers depth (view value.now) }
{
    if depth == 0 {
        return value.as_integer().is_some();
    }
    let Some(values) = value.as_array() else {
        return false;
    };
    for value in values {
        if !are_integers(value, depth - 1) {
            return false;
        }
    }
    true
}
