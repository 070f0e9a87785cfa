// Lives, studies and archives.
use lives::{Life, OpenStudy, Place, UncheckedLife};
use units::Refusal;

const MOST_PLACES: usize = 1024;

// The number of a refusal.
fn refusal<T: Drop>(res: Result<T, Refusal>) -> Option<u32> {
    res.err().map(Refusal::number)
}

fn failed_at(exit: u32) -> UncheckedLife {
    UncheckedLife {
        serial: 7,
        entry: 0,
        exit,
        status: 0,
    }
}

#[test]
fn exit_ages(rt: HostRuntime) {
    assert_eq!(rt; refusal(Life::try_from(failed_at(2_097_151))), None);
    assert_eq!(rt; refusal(Life::try_from(failed_at(2_097_152))), Some(3));
    assert_eq!(rt; refusal(Life::try_from(failed_at(0))), Some(3));
}

#[test]
fn the_1025th_life(rt: HostRuntime) {
    let mut memory = [Place::blank(); 2000];
    let mut study = OpenStudy::open(&mut memory);
    for _ in 0..MOST_PLACES {
        assert_eq!(rt; refusal(study.enter(failed_at(9))), None);
    }
    assert_eq!(rt; refusal(study.enter(failed_at(9))), Some(9));
}

#[test]
fn empty_archive(rt: HostRuntime) {
    let mut memory = [Place::blank(); 1];
    let study = OpenStudy::open(&mut memory).seal();
    let mut words = [9; 4];
    assert_eq!(rt; refusal(study.write(&mut words[0..2])), Some(13));
    assert_eq!(rt; refusal(study.write(&mut words)), None);
    assert_eq!(rt; words, [0x1000_0001, 0x2000_0000, 0x2000_0022, 9]);
}
