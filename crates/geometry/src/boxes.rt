// Making boxes and scopes; volumes, shared volumes and pieces of boxes.
ghost use Rattle.std.specs.Prelude.{◌≡◌, ℕ, ◌+◌, ◌*◌, ◌<◌, ◌≤◌, MatchOption};
ghost use Rattle.geometry.specs.Limits.{site, most_lines};
ghost use Rattle.geometry.specs.Boxes.{Fits, Stretch, Boxed, span_on, with_span, volume_of, overlap, shared_with, Within, Piece};

use crate::axis::Axis;
use crate::cell::Cell;
use crate::cuboid::Cuboid;
use crate::limits::{LEAST, MOST_LINES, SITE};
use crate::scope::Scope;
use crate::span::Span;
use crate::triple::Triple;
use crate::units::Mm;

impl Span {
    // None where the stretch is too short or reaches out of the site.
    pub fn new(at: Mm, size: Mm) -> Option<Span>
        ensures { MatchOption result (Fits at.0 size.0 → ⊥) (Stretch at.0 size.0) }
    {
        if size.0 < LEAST || size.0 > SITE || at.0 > SITE - size.0 {
            return None;
        }
        Some(Span { at, size })
    }

    // The part from the offset on, of the given length; None where it is too short or reaches out of this stretch.
    pub fn part(self, offset: Mm, length: Mm) -> Option<Span>
        ensures { MatchOption result (Within self offset.0 length.0 → ⊥) (Stretch (self.at.0 + offset.0) length.0) }
    {
        if length.0 < LEAST || length.0 > self.size.0 || offset.0 > self.size.0 - length.0 {
            return None;
        }
        Some(Span {
            at: Mm(self.at.0 + offset.0),
            size: length,
        })
    }

    // The length that this stretch shares with the stretch of that index in a grid of that edge.
    pub fn overlap(self, edge: u32, index: u32) -> u32
        ensures { (result ≡ overlap edge index self) × (result ≤ site) }
    {
        let begin = index as u64 * edge as u64;
        let low = begin.max(self.at.0 as u64);
        let high = (begin + edge as u64).min(self.at.0 as u64 + self.size.0 as u64);
        high.saturating_sub(low) as u32
    }
}

impl Cuboid {
    // The box at a corner with those sizes; None where it is none of the site.
    pub fn new(corner: Triple, size: Triple) -> Option<Cuboid>
        ensures { MatchOption result (Fits corner.x.0 size.x.0 → Fits corner.y.0 size.y.0 → Fits corner.z.0 size.z.0 → ⊥) (Boxed corner.x.0 corner.y.0 corner.z.0 size.x.0 size.y.0 size.z.0) }
    {
        let x = Span::new(corner.x, size.x)?;
        let y = Span::new(corner.y, size.y)?;
        let z = Span::new(corner.z, size.z)?;
        Some(Cuboid { x, y, z })
    }

    pub fn on(self, axis: Axis) -> Span
        ensures { result ≡ span_on axis self }
    {
        match axis {
            Axis::X => self.x,
            Axis::Y => self.y,
            Axis::Z => self.z,
        }
    }

    // This box with another stretch on the axis.
    pub fn with(self, axis: Axis, span: Span) -> Cuboid
        ensures { result ≡ with_span axis span self }
    {
        match axis {
            Axis::X => Cuboid { x: span, ..self },
            Axis::Y => Cuboid { y: span, ..self },
            Axis::Z => Cuboid { z: span, ..self },
        }
    }

    pub fn volume(self) -> u64
        ensures { result ≡ volume_of self }
    {
        self.x.size.0 as u64 * self.y.size.0 as u64 * self.z.size.0 as u64
    }

    // The volume that this box shares with a cell of a grid of that edge.
    pub fn shared(self, edge: u32, cell: Cell) -> u64
        ensures { result ≡ shared_with edge cell self }
    {
        self.x.overlap(edge, cell.i) as u64
            * self.y.overlap(edge, cell.j) as u64
            * self.z.overlap(edge, cell.k) as u64
    }

    // The piece along the axis from the offset on, of the given length; None where it is none of this box.
    pub fn piece(self, axis: Axis, offset: Mm, length: Mm) -> Option<Cuboid>
        ensures { MatchOption result (Within (span_on axis self) offset.0 length.0 → ⊥) (Piece self axis offset.0 length.0) }
    {
        let span = self.on(axis).part(offset, length)?;
        Some(self.with(axis, span))
    }
}

impl Scope {
    // None where no book has a line of that index.
    pub fn new(cuboid: Cuboid, rule: u8) -> Option<Scope>
        ensures { MatchOption result (most_lines ≤ rule) (λ s. (s.cuboid ≡ cuboid) × (s.rule ≡ rule)) }
    {
        if rule >= MOST_LINES {
            return None;
        }
        Some(Scope { cuboid, rule })
    }
}
