//! What a mix is: clips of takes, each with its place, its length and its gain.
//!
//! A [`Mix`] is within its limits (`IsMixing`, `specs/Mixes.antt`). Clips may overlap. `gain points k` is the gain at a
//! place of a clip (`specs/Gains.antt`), `points_of` the points of a channel (`specs/Clips.antt`). [`line_at`] finds the
//! straight line on which it is at a place, and with it the gains at all places up to the line's end. `mix_length` says
//! how many places a mix has, and `total` what taps add up to (`specs/Mixes.antt`).
#![tactic(auto)]

mod clip;
mod gain;
mod line;
mod lines;
mod mix;
mod taps;

pub use clip::Clip;
pub use gain::{Gains, Point};
pub use line::Line;
pub use lines::line_at;
pub use mix::{Mix, mix_length};
pub use taps::total;
