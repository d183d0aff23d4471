// Compares whole listings with a plain enumeration of all sets of conditions, over many small random tables.
// It prints what it compared, or the first round in which the two differ.
#![tactic(auto)]

mod asked;
mod enumeration;
mod facts;
mod list;
mod random;
mod refusal;
mod round;
mod sample;
mod sets;
mod shape;
mod totals;
mod trial;
mod trouble;

use crate::random::Random;
use crate::shape::Shape;
use crate::totals::Totals;
use anyhow::anyhow;

const ROUNDS: u32 = 21000;

const START: u64 = 88172645463325252;

fn main(rt: HostRuntime) -> anyhow::Result<()> {
    let mut random = Random::new(START);
    let mut totals = Totals::default();
    for round in 0..ROUNDS {
        let shape = Shape::of(round);
        match shape.play(rt.alloc(), &mut random) {
            Ok(seen) => totals.add(seen, shape.has_layers()),
            Err(trouble) => {
                println!(rt; "round {round} {trouble}")?;
                return Err(anyhow!("a listing differs from the enumeration"));
            }
        }
    }
    println!(rt; "{totals}")?;
    Ok(())
}
