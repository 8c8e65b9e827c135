// How many hart steps a target makes before each transaction.
ghost use Rattle.std.specs.Prelude.{◌≡◌, ◌≤◌, ◌<◌, ◌^◌, ◌+◌, ◌*◌, ◌/◌, ◌%◌, ◌⊎◌, ◌↔◌, ℕ, length, IfSome, IsSome};
ghost use Rattle.arrayvec.specs.ArrayVec.{array_vec_len};
ghost use Rattle.fe_base.specs.PausePlan.{Listed, Shuffled, IsPauseList, IsPausePlan, pause_at, shuffled};
ghost use Rattle.fe_base.specs.Limits.{pause_limit};

use crate::limits::PAUSE_LIMIT;
use arrayvec::ArrayVec;
use std::marker::Model;

/// The most values of a list of pauses.
const MOST_PAUSES: usize = 64;

/// The pauses of a run: the number of hart steps before each transaction, by the number of the transaction.
#[derive(Drop)]
pub struct Pauses {
    plan: Plan,
}

#[derive(Drop)]
enum Plan {
    List(ArrayVec<u32, MOST_PAUSES>),
    Shuffle(u64),
}

impl Model for Pauses {
    ghost use Rattle.fe_base.specs.PausePlan.{PausePlan, IsPausePlan};
    ghost use Rattle.fe_base.specs.PauseModel.{plan_of};

    ghost Value = { PausePlan };

    ghost view = { λ p. plan_of p.plan };

    ghost invariant = { λ p. IsPausePlan (plan_of p.plan) };
}

// The pause of a seed at a turn.
fn shuffled_pause(seed: u64, turn: u64) -> u32
    ensures value { result ≡ shuffled seed turn }
    ensures bound { result ≤ 8 }
{
    let mixed = turn
        .wrapping_mul(6_364_136_223_846_793_005)
        .wrapping_add(seed);
    1 + (mixed >> 61) as u32
}

impl Pauses {
    /// These pauses one after the other, from the first again behind the last. None exactly where there are none or
    /// more than 64, or one is above the limit of 1,000,000.
    pub fn list(values: &[u32]) -> Option<Pauses>
        ensures value { IfSome result (λ pauses. pauses ≡ Listed values.now) }
        ensures some { IsSome result ↔ IsPauseList values.now }
    {
        if values.is_empty()
            || values.len() > MOST_PAUSES
            || values.iter().any(|value| *value > PAUSE_LIMIT)
        {
            return None;
        }
        let mut held = ArrayVec::new();
        for value in values {
            held.push(*value);
        }
        Some(Pauses {
            plan: Plan::List(held),
        })
    }

    /// Pauses from 1 to 8 that follow from the seed.
    pub fn shuffle(seed: u64) -> Pauses
        ensures { result ≡ Shuffled seed }
    {
        Pauses {
            plan: Plan::Shuffle(seed),
        }
    }

    /// How many hart steps go before the turn of this number, counted from 0.
    pub fn at(&self, turn: u64) -> u32
        ensures value { result ≡ pause_at self.now turn }
        ensures bound { result ≤ pause_limit }
    {
        match &self.plan {
            Plan::List(values) => values[(turn % values.len() as u64) as usize],
            Plan::Shuffle(seed) => shuffled_pause(*seed, turn),
        }
    }

    /// Says that the pauses are within the limits of a list. It does nothing.
    #[inline(always)]
    pub fn within_limits(&self)
        ensures { IsPausePlan self.now }
    {
        let _plan = &self.plan;
    }
}
