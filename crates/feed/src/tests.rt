use crate::Batch;
use curves::{Fit, Shape, Step, Work, fit_curve};
use isotonic::Block;
use pooling::{Rate, Turned};
use sources::{Gap, Source};
use units::{Age, Exposure, Refusal};

// A step that no fit writes.
const OLD: Step = Step {
    from: Age(9),
    to: Age(8),
    failures: 7,
    exposure: Exposure(6),
};

// Fits a batch of 7 units that failed at 40, over step memory of three places.
fn fit_batch(shape: Shape, steps: &mut [Step; 3]) -> Result<Fit, Refusal> {
    let batch = Batch::new(7, Age(40)).unwrap();
    let mut gaps = [Gap::default(); 2];
    let blank: Block<Turned<Rate>> = Block::default();
    let mut blocks = [blank; 2];
    let mut scores = [0; 2];
    let work = Work {
        gaps: &mut gaps,
        blocks: &mut blocks,
        scores: &mut scores,
    };
    fit_curve(&batch, shape, steps, work)
}

// All fail at the end of the one gap, so the curve is one step and an empty trough. S(7) = 183,982 and S(280) = 532,760, and 7 (183,982 - 532,760) = -2,441,446.
#[test]
fn falling_curve_of_a_batch(rt: HostRuntime) {
    let mut steps = [OLD; 3];
    let fit = Fit {
        steps: 1,
        turning_gap: 2,
        score: -2_441_446,
        counted: 7,
        set_aside: 0,
        time_on_test: Exposure(280),
    };
    assert_eq!(rt; fit_batch(Shape::Falling, &mut steps), Ok(fit));
    let step = Step {
        from: Age(0),
        to: Age(40),
        failures: 7,
        exposure: Exposure(280),
    };
    assert_eq!(rt; steps, [step, OLD, OLD]);
}

// All failures stand at the oldest age and are set aside.
#[test]
fn nothing_is_left_to_turn(rt: HostRuntime) {
    let mut steps = [OLD; 3];
    assert_eq!(rt;
        fit_batch(Shape::UShaped, &mut steps),
        Err(Refusal::NothingThere)
    );
    assert_eq!(rt; Refusal::NothingThere.number(), 12);
    assert_eq!(rt; steps, [OLD; 3]);
}

#[test]
fn bounds_of_a_batch(rt: HostRuntime) {
    assert_eq!(rt; Batch::new(0, Age(40)), None);
    assert_eq!(rt; Batch::new(1_025, Age(40)), None);
    assert_eq!(rt; Batch::new(7, Age(0)), None);
    assert_eq!(rt; Batch::new(7, Age(2_097_152)), None);
    assert_eq!(rt; Batch::new(1_024, Age::LAST).is_some(), true);
}

#[test]
fn questions_of_a_batch(rt: HostRuntime) {
    let batch = Batch::new(7, Age(40)).unwrap();
    assert_eq!(rt; batch.next_failure(Age(39)), Some(Age(40)));
    assert_eq!(rt; batch.next_failure(Age(40)), None);
    assert_eq!(rt; batch.failures_at(Age(39)), 0);
    assert_eq!(rt; batch.exposure_between(Age(38), Age(50)), Exposure(14));
    assert_eq!(rt; batch.oldest_age(), Age(40));
}
