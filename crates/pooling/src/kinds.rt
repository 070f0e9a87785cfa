// Kinds of elements that pool.
ghost use Rattle.std.specs.Prelude.{◌≡◌, ℕ, Bool};
ghost use Rattle.isotonic.specs.Laws.{Laws};
ghost use Rattle.pooling.specs.Laws.{unturned_laws};
ghost use Rattle.pooling.specs.Turns.{turned_leq, turned_joined, turned_bulk};

// The bulk up to which pooling adds.
pub const BULK_LIMIT: u64 = 2_147_483_648;

// A kind of element with an order, a pooling and a bulk. Where two bulks pass the limit together, pooling answers the first element.
pub trait Poolable: Copy {
    // The greatest number of pieces in a list of this kind.
    const MOST: usize;

    ghost MOST: { ℕ };

    // Whether one value is at most another.
    ghost leq: { Self → Self → Bool };

    // Two elements pooled, in this order.
    ghost joined: { Self → Self → Self };

    ghost bulks: { Self → ℕ };

    // Whether the value is at most the other's.
    fn at_most(&self, other: &Self) -> bool
        ensures { result ≡ leq self.now other.now };

    // The two as one element, in this order.
    fn pool(self, other: Self) -> Self
        ensures { result ≡ joined self other };

    fn bulk(&self) -> u64
        ensures { result ≡ bulks self.now };

    // The order is total and transitive. Where bulks add up within the limit, pooling is associative, lies strictly between two unequal values, equals two equal ones, and adds no bulk; past it, it answers the first.
    ghost lawful: { Laws leq joined bulks };
}

// An element of any kind, in the turned order.
// Not `Reverse` of the library, which turns an `Ord`: kinds compare by `at_most`, since an `Ord` needs 1/2 == 2/4, and those pool to different blocks.
#[derive(Clone, Copy, PartialEq, Eq, Default, Debug)]
pub struct Turned<K>(pub K);

impl<K: Poolable> Poolable for Turned<K> {
    const MOST: usize = K::MOST;

    ghost MOST = { K.Poolable.MOST };

    ghost leq = { turned_leq K.Poolable.leq };

    ghost joined = { turned_joined K.Poolable.joined };

    ghost bulks = { turned_bulk K.Poolable.bulks };

    ghost lawful = { unturned_laws K.Poolable.lawful };

    fn at_most(&self, other: &Turned<K>) -> bool {
        other.0.at_most(&self.0)
    }

    fn pool(self, other: Turned<K>) -> Turned<K> {
        Turned(self.0.pool(other.0))
    }

    fn bulk(&self) -> u64 {
        self.0.bulk()
    }
}
