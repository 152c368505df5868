// A second apportioner: the spare millimetres are handed out one at a time, each to the part that waits with the largest remainder.
use bounded::inline::InlineVec;
use geometry::units::Weight;
use rows::size::Size;
use std::cmp::Reverse;

// A refusal: its number and the part that it names.
#[derive(Clone, Copy, PartialEq, Eq, Debug)]
pub struct Refused {
    pub number: u32,
    pub part: u32,
}

// The lengths of a row, or why there is none.
pub type Told = Result<InlineVec<u64, 64>, Refused>;

// A refusal that names no part.
fn of_no_part(number: u32) -> Refused {
    Refused { number, part: 0 }
}

// A part while a scope is cut: what it asks for, its length so far, and its remainder while it waits for a millimetre more.
#[derive(Clone, Copy)]
struct Place {
    size: Size,
    length: u64,
    waits: Option<u64>,
}

impl Place {
    fn new(size: Size) -> Place {
        let length = match size {
            Size::Fix(length) => length.0 as u64,
            Size::Float(_) => 0,
        };
        Place {
            size,
            length,
            waits: None,
        }
    }

    fn weight(&self) -> u64 {
        match self.size {
            Size::Fix(_) => 0,
            Size::Float(weight) => weight.0 as u64,
        }
    }
}

// The first part that waits with the largest remainder.
fn next_served(places: &mut [Place]) -> Option<&mut Place> {
    places
        .iter_mut()
        .enumerate()
        .filter(|(_, place)| place.waits.is_some())
        .max_by_key(|(i, place)| (place.waits, Reverse(*i)))
        .map(|(_, place)| place)
}

// Hands out what is left, one millimetre to a part.
fn hand_out(places: &mut [Place], left: u64) -> Result<(), Refused> {
    for _ in 0..left {
        let place = next_served(places).ok_or(of_no_part(36))?;
        place.length = place.length.saturating_add(1);
        place.waits = None;
    }
    Ok(())
}

// Gives each floating part its whole share, and one millimetre more as long as some are left.
fn share(places: &mut [Place], rest: u64, weights: u64) -> Result<(), Refused> {
    let mut left = rest;
    for place in places.iter_mut() {
        if place.weight() > 0 && weights > 0 {
            let product = rest.saturating_mul(place.weight());
            place.length = product / weights;
            place.waits = Some(product % weights);
            left = left.saturating_sub(place.length);
        }
    }
    hand_out(places, left)
}

fn cut(places: &mut [Place], length: u64) -> Result<(), Refused> {
    let taken = places
        .iter()
        .fold(0u64, |sum, place| sum.saturating_add(place.length));
    let weights = places
        .iter()
        .fold(0u64, |sum, place| sum.saturating_add(place.weight()));
    let rest = length.checked_sub(taken).ok_or(of_no_part(31))?;
    if weights == 0 && rest > 0 {
        return Err(of_no_part(32));
    }
    share(places, rest, weights)?;
    match (1u32..)
        .zip(places.iter())
        .find(|(_, place)| place.length == 0)
    {
        Some((part, _)) => Err(Refused { number: 33, part }),
        None => Ok(()),
    }
}

// The lengths of the places in order.
fn lengths_of(places: &[Place]) -> InlineVec<u64, 64> {
    let mut lengths = InlineVec::new(0);
    for place in places {
        let _ = lengths.push(place.length);
    }
    lengths
}

// A row has at most 64 places, so they lie in an array.
pub fn second_split(length: u64, sizes: &[Size]) -> Told {
    let mut places = [Place::new(Size::Float(Weight(1))); 64];
    for (place, size) in places.iter_mut().zip(sizes) {
        *place = Place::new(*size);
    }
    let places = &mut places[..sizes.len().min(64)];
    cut(places, length)?;
    Ok(lengths_of(places))
}

// The tile count by trial: the most tiles of which the last is at least half there.
pub fn second_repeat(length: u64, tile: u64) -> Told {
    // n tiles fit if n - 1/2 of them are no longer than the scope
    let count = (2..66u64)
        .rev()
        .find(|n| (2 * *n - 1).saturating_mul(tile) <= length.saturating_mul(2))
        .unwrap_or(1);
    if count > 64 {
        return Err(of_no_part(34));
    }
    let sizes = [Size::Float(Weight(1)); 64];
    second_split(length, &sizes[..count as usize])
}
