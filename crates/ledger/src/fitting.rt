// The curve of a source, fitted and printed.
use crate::answers::Answer;
use crate::desk::print_lines;
use crate::failures::Failure;
use curves::{Shape, Step, Work, fit_curve};
use isotonic::Block;
use pooling::{Rate, Turned};
use sources::{Gap, Source};

// Fits a curve with room for so many steps and work places, and prints its steps.
pub fn fit_and_print<S: Source>(
    rt: &HostRuntime,
    source: &S,
    shape: Shape,
    room: u32,
    places: u32,
) -> Result<Answer, Failure> {
    let mut steps = vec![in rt.alloc(); Step::default(); room as usize]?;
    let mut gaps = vec![in rt.alloc(); Gap::default(); places as usize]?;
    let mut blocks = vec![in rt.alloc(); Block::<Turned<Rate>>::default(); places as usize]?;
    let mut scores = vec![in rt.alloc(); 0; places as usize]?;
    let work = Work {
        gaps: gaps.as_mut_slice(),
        blocks: blocks.as_mut_slice(),
        scores: scores.as_mut_slice(),
    };
    let fit = fit_curve(source, shape, steps.as_mut_slice(), work)?;
    steps.truncate(fit.steps);
    print_lines(rt, steps.as_slice())?;
    Ok(Answer::Curve(fit))
}
