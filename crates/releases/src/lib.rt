// Success shares of firmware releases: a sheet of trials, and the growth over releases.
#![tactic(auto)]

mod fits;
mod pieces;
mod rows;
mod sheets;
mod steps;

pub use rows::MOST_TRIALS;
pub use sheets::{ROWS, ReleaseSheet};
pub use steps::{Growth, GrowthStep};

#[cfg(test)]
mod tests {
    use super::*;

    // Release 3 has no trials, and the second release does not rise above the first.
    #[test]
    fn releases_without_trials_are_passed_over(rt: HostRuntime) {
        let mut sheet = ReleaseSheet::new();
        assert!(rt; sheet.note(1, 4, 10).is_ok());
        assert!(rt; sheet.note(2, 3, 10).is_ok());
        assert!(rt; sheet.note(4, 9, 10).is_ok());
        assert!(rt; sheet.note(65, 1, 1).is_err());
        let mut steps = [GrowthStep::default(); 3];
        let growth = sheet.growth(&mut steps);
        assert_eq!(rt;
            growth,
            Ok(Growth {
                steps: 2,
                score: -1_531_644
            })
        );
        assert_eq!(rt;
            steps[0],
            GrowthStep {
                first: 1,
                last: 2,
                successes: 7,
                trials: 20
            }
        );
        assert_eq!(rt;
            steps[1],
            GrowthStep {
                first: 4,
                last: 4,
                successes: 9,
                trials: 10
            }
        );
        assert_eq!(rt;
            steps[2],
            GrowthStep {
                first: 0,
                last: 0,
                successes: 0,
                trials: 0
            }
        );
    }
}
