ghost use Rattle.std.specs.Prelude.{◌≡◌, ◌++◌, ◌+◌, ◌<◌, ◌^◌, length, replicate, IfOk, OnOk};
ghost use Rattle.twin_script.specs.TwinScripts.{sides_in};
ghost use Rattle.twin_jobs.specs.Order.{others_in};

use std::alloc::{AllocError, Global};
use twin_script::{Side, TwinTurn};

/// Adds the events of one line of the order: `turn.count` times its side.
fn add_turn(sides: &mut Vec<Side>, turn: TwinTurn) -> Result<(), AllocError>
    ensures { OnOk result (sides.new.items ≡ sides.old.items ++ replicate turn.count turn.side) }
{
    for _ in 0..turn.count {
        sides.push(turn.side)?;
    }
    Ok(())
}

/// The side of each event that an order asks for, in turn. Fails with AllocError only if memory
/// runs out.
pub fn sides_of(alloc: Global, order: &[TwinTurn]) -> Result<Vec<Side>, AllocError>
    ensures { IfOk result (λ sides. sides.items ≡ sides_in order.now) }
{
    let mut sides = Vec::new(alloc);
    for turn in order {
        add_turn(&mut sides, *turn)?;
    }
    Ok(sides)
}

/// The numbers, from 1 on, of the events that are not this side's. Fails with AllocError only if
/// memory runs out.
pub fn others_of(alloc: Global, sides: &[Side], side: Side) -> Result<Vec<u32>, AllocError>
    requires few { length sides.now + 1 < 2 ^ 32 }
    ensures { IfOk result (λ others. others.items ≡ others_in side 1 sides.now) }
{
    let mut others = Vec::new(alloc);
    for place in 0..sides.len() {
        if sides[place] != side {
            others.push(place as u32 + 1)?;
        }
    }
    Ok(others)
}
