// Exact pooling of neighbouring pieces: kinds of elements that pool, the stack of blocks, and the rising fit of a list.
#![tactic(auto)]

ghost use Rattle.std.specs.Prelude.{◌≤◌};

mod fractions;
mod kinds;
mod rate_kind;
mod rates;
mod rising;
mod scores;
mod share_kind;
mod shares;
mod stacks;

pub use isotonic::Block;
pub use kinds::{BULK_LIMIT, Poolable, Turned};
pub use rates::Rate;
pub use rising::{fits_agree, pool_rising, ratios_commute};
pub use scores::Scored;
pub use shares::Share;
pub use stacks::Stack;

#[cfg(test)]
mod tests {
    use super::*;
    use units::Exposure;

    fn piece(failures: u32, exposure: u32) -> Rate
        requires { 1 ≤ exposure }
    {
        Rate {
            failures,
            exposure: Exposure(exposure),
        }
    }

    // Rates are not averaged: 1/4 and 1/12 pool to 2/16.
    #[test]
    fn rates_pool_by_adding(rt: HostRuntime) {
        let pieces = [piece(1, 4), piece(1, 12)];
        let blank = Block {
            first: 9,
            last: 9,
            element: piece(0, 1),
        };
        let mut blocks = [blank; 3];
        assert_eq!(rt; pool_rising(&pieces, &mut blocks), Ok(1));
        assert_eq!(rt;
            blocks[0],
            Block {
                first: 0,
                last: 1,
                element: piece(2, 16),
            }
        );
        assert_eq!(rt; blocks[2], blank);
        let refused = pool_rising(&pieces, &mut blocks[0..1]).map_err(|refusal| refusal.number());
        assert_eq!(rt; refused, Err(13));
    }

    // S(2) = 65,536 and S(9) = 207,744, so 2 of 9 scores 2 (65,536 - 207,744).
    #[test]
    fn scores_add_terms(rt: HostRuntime) {
        assert_eq!(rt; piece(2, 9).score(), -284_416);
        assert_eq!(rt; piece(0, 9).score(), 0);
        let half = Share {
            successes: 1,
            trials: 2,
        };
        assert_eq!(rt; half.score(), -131_072);
    }
}
