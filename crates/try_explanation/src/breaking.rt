//! Ways to break an explanation.
use base_types::{Memory, TupleList};
use run_explain::{Explanation, How};
use std::alloc::Global;
use std::mem;

/// What is done to one reason of an explanation.
#[derive(Clone, Copy, Debug)]
pub(crate) enum Break {
    /// The reason is dropped.
    Dropped,
    /// The reason is there twice.
    Doubled,
    /// The reason changes places with the next one.
    Moved,
    /// The reason has another step.
    Step,
    /// The reason has another mapping.
    Mapping,
    /// The reason's image lacks its last tuple.
    Image,
}

/// All ways to break a reason, with their names.
pub(crate) const BREAKS: [(Break, &str); 6] = [
    (Break::Dropped, "dropped"),
    (Break::Doubled, "doubled"),
    (Break::Moved, "moved"),
    (Break::Step, "step"),
    (Break::Mapping, "mapping"),
    (Break::Image, "image"),
];

/// The explanation with the reason at the place broken; `same` is a copy of the explanation. A reason without the part that is
/// broken stays as it is.
pub(crate) fn broken(
    explanation: Explanation,
    same: Explanation,
    place: usize,
    way: Break,
) -> Result<Explanation, Memory> {
    let mut reasons = explanation.into_vec();
    let mut twice = same.into_vec();
    if place < reasons.len() && place < twice.len() {
        match way {
            Break::Dropped => {
                reasons.remove(place);
            }
            Break::Doubled => {
                reasons.push(twice.swap_remove(place))?;
                reasons[place..].rotate_right(1);
            }
            Break::Moved => {
                if place + 1 < reasons.len() {
                    reasons.swap(place, place + 1);
                }
            }
            Break::Step | Break::Mapping | Break::Image => {
                let how = mem::replace(&mut reasons[place].how, How::Base);
                reasons[place].how = changed(how, way);
            }
        }
    }
    Ok(Explanation::from_vec(reasons))
}

// The reason with another step, mapping or image, if it has one.
fn changed(how: How, way: Break) -> How {
    match how {
        How::Base => How::Base,
        How::Inserted { update, step } => How::Inserted {
            update,
            step: other_step(step, way),
        },
        How::Generated {
            update,
            step,
            mapping,
            image,
        } => How::Generated {
            update,
            step: other_step(step, way),
            mapping: other_mapping(mapping, way),
            image: other_image(image, way),
        },
        How::Rewritten { update, step, from } => How::Rewritten {
            update,
            step: other_step(step, way),
            from,
        },
    }
}

fn other_step(step: u32, way: Break) -> u32 {
    match way {
        Break::Step => step ^ 1,
        _ => step,
    }
}

fn other_mapping(mapping: u16, way: Break) -> u16 {
    match way {
        Break::Mapping => mapping ^ 1,
        _ => mapping,
    }
}

fn other_image(mut image: TupleList, way: Break) -> TupleList {
    match way {
        Break::Image => {
            image.pop();
            image
        }
        _ => image,
    }
}
