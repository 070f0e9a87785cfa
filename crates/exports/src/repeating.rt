// The same work done again and again, as a caller that measures it wants.
ghost use Rattle.std.specs.Prelude.{◌≡◌, if◌then◌else◌, nat_eq};
ghost use Rattle.exports.specs.Repeats.{Answers};

// Does the work so many times in the same memory. Answers as the last time; none for no time.
pub(crate) fn repeated<M, T: Copy, F: Fn(&mut M) -> T>(
    times: u32,
    memory: &mut M,
    work: F,
) -> Option<T>
    requires { F.IsAlwaysCallable work }
    ensures { (answer : T) → Answers (F.post work) answer → result ≡ (if nat_eq times 0 then None else Some answer) }
{
    let mut last = None;
    for _ in 0..times {
        last = Some(work(memory));
    }
    last
}
