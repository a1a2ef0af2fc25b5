ghost use Rattle.std.specs.Prelude.{◌≡◌, ◌⊎◌, Ok, Err, IfOk, IfErr};

/// Drops a value. A function that drops a value of a large type through this call is checked
/// faster, because a drop is proved variant by variant where its type is written out.
pub fn let_go<T: Drop>(value: T) {
    let _ = value;
}

/// Writes a value, and drops the old one as `let_go` does.
pub fn put<T: Drop>(place: &mut T, value: T)
    ensures { place.new ≡ value }
{
    *place = value;
}

/// Returns both values, or the fault of one. A function that makes several values is checked
/// faster this way than with a `?` for each, because it holds none of them where it may end early.
pub fn both<A: Drop, B: Drop, E: Drop>(one: Result<A, E>, other: Result<B, E>) -> Result<(A, B), E>
    ensures one { IfOk result (λ pair. one ≡ Ok pair.0) }
    ensures other { IfOk result (λ pair. other ≡ Ok pair.1) }
    ensures fault { IfErr result (λ e. (one ≡ Err e) ⊎ (other ≡ Err e)) }
{
    let one = one?;
    let other = other?;
    Ok((one, other))
}
