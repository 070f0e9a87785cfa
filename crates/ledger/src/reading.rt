// Fields of one sort.
ghost use Rattle.std.specs.Prelude.{◌≡◌, ℕ, List, Option, map, IfOk, vec_items};
ghost use Rattle.std.specs.Option.{option_map};
ghost use Rattle.ledger.specs.Commands.{Reads, all_of};

use std::alloc::{AllocError, Global};

// What a reader makes of the fields, where it reads every one.
pub fn read_all<T: Drop, F: Fn(&[u8]) -> Option<T>>(
    heap: Global,
    fields: &[&[u8]],
    read: F,
) -> Result<Option<Vec<T>>, AllocError>
    requires { F.IsAlwaysCallable read }
    ensures { (t : List ℕ → Option T) → Reads (F.post read) t → IfOk result (λ o. option_map vec_items o ≡ all_of t (map (λ x. x.now) fields.now)) }
{
    let mut all = Vec::new(heap);
    for field in fields {
        let Some(value) = read(field) else {
            return Ok(None);
        };
        all.push(value)?;
    }
    Ok(Some(all))
}
