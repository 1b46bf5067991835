// A system of equations that is taken in one by one, and solved.
ghost use Rattle.std.specs.Prelude.{◌≡◌, is_some, replicate};
ghost use Rattle.pauli.specs.Limits.{max_rows};
ghost use Rattle.columns.specs.Masks.{bits};
ghost use Rattle.elimination.specs.Systems.{Asked, Holds, idle, Triangular, Took};

use crate::equation::Equation;
use columns::Column;
use columns::mask::has;
use pauli::{Letter, MAX_ROWS};

// An equation for each unknown, at the unknown's index, where it is the lowest of the equation, or the equation says nothing.
#[derive(Drop)]
pub(crate) struct System {
    pub equations: [Equation; MAX_ROWS],
    ghost triangular: { Triangular equations },
}

impl System {
    // No equation says anything.
    #[tactic(auto, using(crate::proofs::Adding::idle_triangular))]
    pub fn empty() -> System
        ensures { result.equations ≡ replicate max_rows idle }
    {
        System {
            equations: [Equation {
                mask: 0,
                odd: false,
            }; MAX_ROWS],
        }
    }

    // Takes an equation in, unless it contradicts the system, which then stays as it was.
    #[tactic(auto, using(crate::proofs::Systems::left_all, crate::proofs::Systems::left_skipped, crate::proofs::Systems::left_added, crate::proofs::Systems::left_placed, crate::proofs::Systems::left_took, crate::proofs::Systems::left_against, crate::proofs::Systems::left_said))]
    pub fn take(&mut self, equation: Equation) -> Option<()>
        ensures { Took self.old.equations equation.mask equation.odd self.new.equations (is_some result) }
    {
        let mut rest = equation;
        // Lent for reading: tried with iter_mut, and of an equation that is lent to be written, the proof does not see that it stays as it was.
        for (j, known) in self.equations.iter().enumerate() {
            if !has(rest.mask, j) {
                continue;
            }
            if known.mask == 0 {
                self.equations[j] = rest;
                return Some(());
            }
            rest = rest + *known;
        }
        if rest.odd { None } else { Some(()) }
    }

    // Takes in that the rows chosen have a letter at a place, unless that contradicts the system.
    #[tactic(auto, using(crate::proofs::Systems::asked_x, crate::proofs::Systems::asked_z))]
    pub fn ask(&mut self, column: &Column, letter: Letter) -> Option<()>
        ensures { Asked self.old.equations column.now letter self.new.equations (is_some result) }
    {
        self.take(Equation {
            mask: column.x,
            odd: letter.clashes(Letter::X),
        })?;
        self.take(Equation {
            mask: column.z,
            odd: letter.clashes(Letter::Z),
        })
    }

    // Unknowns that solve the system.
    #[tactic(auto, using(crate::proofs::Systems::from_none, crate::proofs::Systems::from_idle, crate::proofs::Systems::from_met, crate::proofs::Systems::from_mended, crate::proofs::Systems::from_all))]
    pub fn solution(&self) -> u64
        ensures { Holds (bits max_rows result) self.now.equations }
    {
        let mut unknowns: u64 = 0;
        // By index: tried with an enumeration, and of one from its back the proof does not see which equation a turn has.
        for j in (0..MAX_ROWS).rev() {
            let known = self.equations[j];
            // An equation that says nothing is met, and most do where the rows are few.
            if known.mask != 0 && !known.is_met_by(unknowns) {
                unknowns ^= 1 << j;
            }
        }
        unknowns
    }
}
