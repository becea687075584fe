//! Gains on straight lines from point to point, worked out by hand.

use clip_core::{Point, line_at};

const FULL: i32 = 1 << 24;

const NO_PLACE: usize = 1 << 36;

// The gain at a place of a clip that has no point, one or two. None where the points or the place aren't within their
// limits.
fn gain_of_none(k: usize) -> Option<i32> {
    if k >= NO_PLACE {
        return None;
    }
    Some(line_at(&[], k).gain_at(k))
}

fn gain_of_one(point: Point, k: usize) -> Option<i32> {
    if point.place > NO_PLACE || point.gain.unsigned_abs() > 1 << 26 || k >= NO_PLACE {
        return None;
    }
    Some(line_at(&[point], k).gain_at(k))
}

fn gain_of_two(first: Point, last: Point, k: usize) -> Option<i32> {
    if first.place >= last.place || last.place > NO_PLACE || k >= NO_PLACE {
        return None;
    }
    if first.gain.unsigned_abs() > 1 << 26 || last.gain.unsigned_abs() > 1 << 26 {
        return None;
    }
    Some(line_at(&[first, last], k).gain_at(k))
}

// Two points, a place, and the gain there.
type Row = ((usize, i32), (usize, i32), usize, i32);

const ROWS: &[Row] = &[
    // A fade from full gain to silence.
    ((4, FULL), (12, 0), 0, FULL),
    ((4, FULL), (12, 0), 4, FULL),
    ((4, FULL), (12, 0), 5, FULL / 8 * 7),
    ((4, FULL), (12, 0), 8, FULL / 2),
    ((4, FULL), (12, 0), 11, FULL / 8),
    ((4, FULL), (12, 0), 12, 0),
    ((4, FULL), (12, 0), 13, 0),
    // Thirds, rounded down.
    ((0, 0), (3, -1), 0, 0),
    ((0, 0), (3, -1), 1, -1),
    ((0, 0), (3, -1), 2, -1),
    ((0, 0), (3, -1), 3, -1),
    ((0, 0), (3, 1), 2, 0),
    ((0, 5), (3, -5), 1, 1),
    ((0, 5), (3, -5), 2, -2),
    // As far and as steep as it may be.
    ((0, 1 << 26), (1 << 36, -(1 << 26)), 1, (1 << 26) - 1),
    ((0, 1 << 26), (1 << 36, -(1 << 26)), 1 << 35, 0),
    (
        (0, 1 << 26),
        (1 << 36, -(1 << 26)),
        (1 << 36) - 1,
        -(1 << 26),
    ),
    ((1, -(1 << 26)), (2, 1 << 26), 1, -(1 << 26)),
    ((1, -(1 << 26)), (2, 1 << 26), 2, 1 << 26),
];

fn is_on_line(row: &Row) -> bool {
    let ((place, gain), (next, there), k, value) = *row;
    let first = Point { place, gain };
    let last = Point {
        place: next,
        gain: there,
    };
    gain_of_two(first, last, k) == Some(value)
}

#[test]
fn gains_are_on_lines_rounded_down(rt: HostRuntime) {
    let mut are_on_lines = true;
    for row in ROWS {
        are_on_lines = are_on_lines && is_on_line(row);
    }
    assert!(rt; are_on_lines, "a row of two points");
}

#[test]
fn one_point_or_none_is_level(rt: HostRuntime) {
    let point = Point { place: 5, gain: -7 };
    let mut are_level = true;
    for k in [0, 4, 5, 6, 1 << 35] {
        are_level = are_level && gain_of_one(point, k) == Some(-7);
        are_level = are_level && gain_of_none(k) == Some(FULL);
    }
    assert!(rt; are_level, "a level gain");
}
