use crate::{BenchRun, Confidence, Gap, Source, count_failure_ages, list_gaps, total_time_on_test};
use lives::{OpenStudy, Place, UncheckedLife};
use units::{Age, Exposure, Refusal};

const AGES: [Age; 6] = [Age(4), Age(9), Age(11), Age(18), Age(27), Age(38)];

#[test]
fn stopped_at_the_last_failure(rt: HostRuntime) {
    let bench = BenchRun::new(10, &AGES, Age(38));
    assert_eq!(rt; bench.check(), Ok(()));
    assert_eq!(rt; total_time_on_test(&bench), Exposure(259));
    assert_eq!(rt; bench.bound(Confidence::Percent95), Ok(40591));
    assert_eq!(rt; bench.bound(Confidence::Percent90), Ok(35809));
    let mut gaps = [Gap::default(); 7];
    assert_eq!(rt; list_gaps(&bench, bench.oldest_age(), &mut gaps), Ok(6));
    assert_eq!(rt; bench.exposure_between(Age(0), Age(11)), Exposure(101));
    assert_eq!(rt; gaps[3].exposure, Exposure(49));
    assert_eq!(rt; gaps[5].exposure, Exposure(55));
}

#[test]
fn stopped_later(rt: HostRuntime) {
    let bench = BenchRun::new(10, &AGES, Age(50));
    assert_eq!(rt; total_time_on_test(&bench), Exposure(307));
    assert_eq!(rt; bench.exposure_between(Age(38), Age(50)), Exposure(48));
    assert_eq!(rt;
        bench.bound(Confidence::Percent95),
        Err(Refusal::NotStoppedAtFailure)
    );
    assert_eq!(rt; Refusal::NotStoppedAtFailure.number(), 14);
    assert_eq!(rt; Refusal::NothingThere.number(), 12);
    // Void: a unit failed after the stop.
    let void = BenchRun::new(10, &AGES, Age(30));
    assert_eq!(rt; void.check(), Err(Refusal::BadBench));
    assert_eq!(rt;
        void.bound(Confidence::Percent95),
        Err(Refusal::NothingThere)
    );
}

fn life(exit: u32, status: u32) -> UncheckedLife {
    UncheckedLife {
        serial: 1000,
        entry: 0,
        exit,
        status,
    }
}

#[test]
fn study_with_a_struck_life(rt: HostRuntime) {
    let mut memory = [Place::blank(); 6];
    let mut study = OpenStudy::open(&mut memory);
    assert_eq!(rt; study.enter(life(1, 0)), Ok(0));
    assert_eq!(rt; study.enter(life(7, 0)), Ok(1));
    assert_eq!(rt; study.enter(life(8, 1)), Ok(2));
    assert_eq!(rt; study.enter(life(9, 0)), Ok(3));
    assert_eq!(rt; study.strike(3), Ok(()));
    let sealed = study.seal();
    assert_eq!(rt; total_time_on_test(&sealed), Exposure(16));
    assert_eq!(rt; count_failure_ages(&sealed, Age(9)), 2);
    assert_eq!(rt; sealed.failures_at(Age(7)), 1);
    assert_eq!(rt; sealed.exposure_between(Age(1), Age(7)), Exposure(12));
    assert_eq!(rt; sealed.oldest_age(), Age(8));
}
